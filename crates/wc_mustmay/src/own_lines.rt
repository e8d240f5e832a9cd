ghost use Rattle.std.specs.Prelude.{◌≡◌, ◌<◌, ◌^◌, All, IfOk, IfSome, Some, length, map};
ghost use Rattle.wc_mustmay.specs.Inner.OneSet.{of_set, own_access};

use std::alloc::{AllocError, Global};

fn of_set(sets: u32, set: u32, line: Option<u32>) -> Option<u32>
    requires { 0 < sets }
    ensures own { result ≡ of_set sets set line }
    ensures small { IfSome result (λ line. line < 2 ^ 32) }
{
    match line {
        Some(line) if line % sets == set => Some(line),
        _ => None,
    }
}

/// Per node its line where that is one of the set.
pub fn own_lines(
    alloc: Global,
    access: &[Option<u32>],
    sets: u32,
    set: u32,
) -> Result<Vec<Option<u32>>, AllocError>
    requires { 0 < sets }
    ensures own { IfOk result (λ v. v.items ≡ own_access sets set access.now) }
    ensures small { IfOk result (λ v. All (λ x. IfSome x (λ line. line < 2 ^ 32)) v.items) }
{
    let mut own = Vec::with_capacity(alloc, access.len())?;
    for line in access {
        own.push(of_set(sets, set, *line))?;
    }
    Ok(own)
}

/// Per node its line.
pub fn all_lines(alloc: Global, lines: &[u32]) -> Result<Vec<Option<u32>>, AllocError>
    ensures { IfOk result (λ v. v.items ≡ map Some lines.now) }
{
    let mut all = Vec::with_capacity(alloc, lines.len())?;
    for line in lines {
        all.push(Some(*line))?;
    }
    Ok(all)
}
