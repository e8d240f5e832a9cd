ghost use Rattle.std.specs.Prelude.{◌≡◌, ◌<◌, ◌≤◌, ◌^◌, ◌++◌, All, Contains, IfOk, IfSome, length};
ghost use Rattle.std.specs.List.Sorted.{IsStrictlyIncreasing};
ghost use Rattle.wc_mustmay.specs.Inner.Names.{AreNamed, AreNames, IsName, lines_in};

use std::alloc::{AllocError, Global};

fn add_line(names: &mut Vec<u32>, line: Option<u32>) -> Result<(), AllocError>
    ensures { IfOk result (λ _. names.new.items ≡ names.old.items ++ lines_in line) }
{
    if let Some(line) = line {
        names.push(line)?;
    }
    Ok(())
}

/// The lines that occur, by rising number: a line's name is its place.
pub fn names_of(alloc: Global, own: &[Option<u32>]) -> Result<Vec<u32>, AllocError>
    ensures names { IfOk result (λ v. AreNames own.now v.items) }
    ensures few { IfOk result (λ v. length v.items ≤ length own.now) }
{
    let mut names = Vec::new(alloc);
    for line in own {
        add_line(&mut names, *line)?;
    }
    names.sort_unstable();
    names.dedup();
    Ok(names)
}

fn name_of(names: &[u32], line: Option<u32>) -> Option<u32>
    requires rising { IsStrictlyIncreasing names.now }
    requires few { length names.now < 2 ^ 32 }
    requires there { IfSome line (Contains names.now) }
    ensures { IsName names.now line result }
{
    let line = line?;
    match names.binary_search(&line) {
        Ok(place) => Some(place as u32),
        Err(_) => None,
    }
}

/// Per node the name of its line.
pub fn named(
    alloc: Global,
    own: &[Option<u32>],
    names: &[u32],
) -> Result<Vec<Option<u32>>, AllocError>
    requires names { AreNames own.now names.now }
    requires few { length names.now < 2 ^ 32 }
    ensures named { IfOk result (λ v. AreNamed names.now own.now v.items) }
    ensures small { IfOk result (λ v. All (λ x. IfSome x (λ k. k < length names.now)) v.items) }
{
    let mut named = Vec::with_capacity(alloc, own.len())?;
    for line in own {
        named.push(name_of(names, *line))?;
    }
    Ok(named)
}
