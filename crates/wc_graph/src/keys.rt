ghost use Rattle.std.specs.Prelude.{◌≡◌, ◌↔◌, ◌≤◌, IfOk, IsTrue, length};
ghost use Rattle.wc_graph.specs.Inner.Keys.{AreBranches, IsIn, HasKey, after, child, with_child};

use std::alloc::AllocError;

/// One key of a set, and the parts of the set whose keys have the digit 0 or 1 there. A digital search tree
/// after Coffman and Eve 1970, whose keys stand least digit first; sets share what they have in common.
#[derive(Clone, Copy, Debug)]
pub struct Branch {
    pub key: u32,
    pub low: Option<usize>,
    pub high: Option<usize>,
}

// The part of the set where a key goes on.
fn child(branch: &Branch, digits: u32) -> Option<usize>
    ensures { result ≡ child branch.now digits }
{
    if digits % 2 == 0 {
        branch.low
    } else {
        branch.high
    }
}

// The branch with another part there.
fn with_child(branch: &Branch, digits: u32, part: usize) -> Branch
    ensures { result ≡ with_child branch.now digits part }
{
    let mut new = *branch;
    if digits % 2 == 0 {
        new.low = Some(part);
    } else {
        new.high = Some(part);
    }
    new
}

/// Whether the set has the key.
pub fn has(branches: &[Branch], root: Option<usize>, key: u32) -> bool
    requires are { AreBranches branches.now }
    requires inside { after root ≤ length branches.now }
    ensures { IsTrue result ↔ IsIn branches.now key key root }
{
    let mut at = root;
    let mut digits = key;
    while let Some(number) = at {
        let branch = branches[number];
        if branch.key == key {
            return true;
        }
        at = child(&branch, digits);
        digits /= 2;
    }
    false
}

/// The set with one more key; `digits` are those of the key that aren't told by the way to this part.
pub fn with(
    branches: &mut Vec<Branch>,
    root: Option<usize>,
    key: u32,
    digits: u32,
) -> Result<usize, AllocError>
    requires are { AreBranches branches.old.items }
    requires inside { after root ≤ length branches.old.items }
    ensures { IfOk result (HasKey branches.old.items branches.new.items root key digits) }
{
    let Some(number) = root else {
        let number = branches.len();
        branches.push(Branch {
            key,
            low: None,
            high: None,
        })?;
        return Ok(number);
    };
    let branch = branches[number];
    if branch.key == key {
        return Ok(number);
    }
    let part = with(branches, child(&branch, digits), key, digits / 2)?;
    let number = branches.len();
    branches.push(with_child(&branch, digits, part))?;
    Ok(number)
}
