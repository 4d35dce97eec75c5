ghost use Rattle.std.specs.Prelude.{◌≡◌, ◌≤◌, ◌<◌, vec_len, IfOk};
ghost use Rattle.fpl_lanes.specs.Lanes.{AllBelow};

use crate::{axpy, first_nonzero, scale};
use std::alloc::{AllocError, Global};
use std::process::Abort;

const P: u32 = 65521;

/// Residues that are `step` apart, from 65520 on.
fn residues(alloc: Global, count: u32, step: u32) -> Result<Vec<u32>, AllocError>
    requires count { count ≤ 100 }
    requires step { step < 65521 }
    ensures below { IfOk result (λ row. AllBelow 65521 row.items) }
    ensures length { IfOk result (λ row. vec_len row ≡ count) }
{
    let mut row = Vec::new(alloc);
    for k in 0..count {
        row.push((65520 + k * step) % P)?;
    }
    Ok(row)
}

// To multiply by the greatest residue is to negate.
#[test]
fn each_length_from_0_to_70(rt: HostRuntime) -> Result<(), AllocError> {
    let alloc = rt.alloc();
    for count in 0..71 {
        for step in [0, 1, 30011] {
            let row = residues(alloc, count, step)?;
            let other = residues(alloc, count, 40009)?;
            let mut difference = residues(alloc, count, step)?;
            axpy(P, &mut difference, P - 1, &other);
            let mut negative = residues(alloc, count, step)?;
            scale(P, &mut negative, P - 1);
            for ((x, y), (d, n)) in row.iter().zip(&other).zip(difference.iter().zip(&negative)) {
                assert!(rt;
                    *d == (*x + P - *y) % P && *n == (P - *x) % P,
                    "{count} places"
                );
            }
        }
    }
    Ok(())
}

#[test]
fn greatest_residues_add_to_nought(rt: HostRuntime) -> Result<(), AllocError> {
    let alloc = rt.alloc();
    let mut row = residues(alloc, 37, 0)?;
    let other = residues(alloc, 37, 0)?;
    axpy(P, &mut row, P - 1, &other);
    assert!(rt; row.len() == 37 && row.iter().all(|x| *x == 0));
    assert!(rt; first_nonzero(&row).is_none());
    Ok(())
}

#[test]
fn first_place_after_each_number_of_noughts(rt: HostRuntime) {
    let mut row = [0; 71];
    assert!(rt; first_nonzero(&row).is_none());
    for count in (0..71).rev() {
        row[count] = 1;
        assert!(rt; first_nonzero(&row) == Some(count), "{count} noughts");
        assert!(rt; first_nonzero(&row[..count]).is_none(), "{count} noughts");
    }
}
