ghost use Rattle.std.specs.Prelude.{◌≡◌, replicate, false, IfOk};

use std::alloc::{AllocError, Global};

/// Marks of `n` things, none of them marked.
pub fn unmarked(alloc: Global, n: usize) -> Result<Vec<bool>, AllocError>
    ensures { IfOk result (λ marks. marks.items ≡ replicate n false) }
{
    let mut marks = Vec::with_capacity(alloc, n)?;
    for _ in 0..n {
        marks.push(false)?;
    }
    Ok(marks)
}
