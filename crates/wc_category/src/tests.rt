ghost use Rattle.std.specs.Prelude.{◌≡◌, IfOk};

use crate::categories;
use std::alloc::{AllocError, Global};
use std::test::Fail;
use wc_model::{Category, Flags, Table};

fn flags(alloc: Global, yes: &[bool]) -> Result<Flags, AllocError>
    ensures { IfOk result (λ flags. flags.yes ≡ yes.now) }
{
    Ok(Flags {
        yes: Table::new(yes.to_vec(alloc)?),
    })
}

// `None` where the lists aren't both empty or both of `nodes` items
fn by(
    alloc: Global,
    nodes: u32,
    must: &[bool],
    may: &[bool],
) -> Result<Option<Vec<Category>>, AllocError> {
    if must.len() != may.len() || (!must.is_empty() && must.len() != nodes as usize) {
        return Ok(None);
    }
    Ok(Some(categories(alloc, nodes, &flags(alloc, must)?, &flags(alloc, may)?)?))
}

#[test]
fn flags_say_hit_miss_or_nothing(rt: HostRuntime) -> Result<(), Fail> {
    let (yes, no) = (true, false);
    let all = by(rt.alloc(), 4, &[yes, no, no, yes], &[yes, yes, no, no])?;
    let want = [
        Category::Hit,
        Category::Unclassified,
        Category::Miss,
        Category::Hit,
    ];
    assert!(rt; all.is_some_and(|all| all.as_slice() == want.as_slice()));
    let none = by(rt.alloc(), 2, &[], &[])?;
    assert!(rt; none.is_some_and(|all| all.as_slice() == [Category::NoCache; 2].as_slice()));
    Ok(())
}
