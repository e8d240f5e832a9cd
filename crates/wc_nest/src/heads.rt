ghost use Rattle.std.specs.Prelude.{◌≡◌, ◌<◌, All, length, IfOk};
ghost use Rattle.wc_nest.specs.Inner.Levels.{class_number, first_heads, is_entered, with_node, note_node, second_of};

use crate::entering::is_entry;
use crate::marking::{Mark, class_of, new_list};
use std::alloc::{AllocError, Global};

// The first two heads of a class.
#[derive(Clone, Copy)]
pub struct Pair {
    pub first: Option<u32>,
    pub second: Option<u32>,
}

// Per class the first two of its members that are entered.
pub fn heads_of(
    alloc: Global,
    marks: &[Mark],
    entered: &[bool],
    start: u32,
    members: &[u32],
    count: usize,
) -> Result<Vec<Pair>, AllocError>
    requires known { All (λ p. p < length marks.now) members.now }
    requires flags { length entered.now ≡ length marks.now }
    requires numbers { All (λ p. class_number marks.now p < count) members.now }
    ensures { IfOk result (λ v. v.items ≡ first_heads marks.now entered.now start count members.now) }
{
    let none = Pair {
        first: None,
        second: None,
    };
    let mut pairs = new_list(alloc, count, none)?;
    for node in members {
        note(marks, entered, start, *node, &mut pairs);
    }
    Ok(pairs)
}

fn note(marks: &[Mark], entered: &[bool], start: u32, node: u32, pairs: &mut Vec<Pair>)
    requires known { node < length marks.now }
    requires flags { length entered.now ≡ length marks.now }
    requires number { class_number marks.now node < length pairs.old.items }
    ensures count { length pairs.new.items ≡ length pairs.old.items }
    ensures noted { pairs.new.items ≡ note_node marks.now entered.now start pairs.old.items node }
{
    if is_entry(entered, start, node) {
        let class = class_of(marks, node);
        pairs[class] = with(node, pairs[class]);
    }
}

fn with(node: u32, pair: Pair) -> Pair
    ensures { result ≡ with_node node pair.first pair.second }
{
    match (pair.first, pair.second) {
        (None, _) => Pair {
            first: Some(node),
            second: None,
        },
        (Some(first), None) => Pair {
            first: Some(first),
            second: Some(node),
        },
        (Some(first), Some(second)) => Pair {
            first: Some(first),
            second: Some(second),
        },
    }
}

// The second head of the first member whose class has one.
pub fn second_head(marks: &[Mark], members: &[u32], pairs: &[Pair]) -> Option<u32>
    requires known { All (λ p. p < length marks.now) members.now }
    requires numbers { All (λ p. class_number marks.now p < length pairs.now) members.now }
    ensures { result ≡ second_of marks.now pairs.now members.now }
{
    for node in members {
        if let Some(second) = pairs[class_of(marks, *node)].second {
            return Some(second);
        }
    }
    None
}
