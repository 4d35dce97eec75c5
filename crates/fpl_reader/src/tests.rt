use crate::{ReaderError, Reason, read};
use std::test::Fail;

#[test]
fn a_presentation_is_read(rt: HostRuntime) -> Result<(), Fail> {
    let text = b"field Q; even x:4; odd u:2; relation [u,u] = 4*x; ideal 1/2*x; equal x = 0;";
    let p = read(rt.alloc(), text)?;
    assert_eq!(rt; p.generators.len(), 2);
    assert_eq!(rt; p.relations.len(), 1);
    assert_eq!(rt; p.ideals.len(), 1);
    assert_eq!(rt; p.queries.len(), 1);
    Ok(())
}

#[test]
fn a_refusal_has_its_place_and_words(rt: HostRuntime) -> Result<(), Fail> {
    match read(rt.alloc(), b"field 7; even x; relation 1/7*x;") {
        Err(ReaderError::Refused { place, reason }) => {
            assert_eq!(rt; place, 28);
            assert_eq!(rt; reason, Reason::ZeroDenominator);
            assert_eq!(rt; reason.text(), b"zero denominator".as_slice());
        }
        _ => assert!(rt; false),
    }
    Ok(())
}
