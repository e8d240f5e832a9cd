ghost use Rattle.std.specs.Prelude.{◌≡◌, ◌+◌, ◌%◌, ◌^◌, ◌==◌, ◌<◌, ℕ, List, None, if◌then◌else◌, reverse, length};
ghost use Rattle.wc_model.specs.Flow.Bounds.{fits};
ghost use Rattle.wc_model.specs.Program.Positions.{Position};
ghost use Rattle.wc_bounds.specs.Inner.Best.{IsAt, ArePlaced, IsFitting};

use wc_base::Addr;
use wc_model::{Context, Node};

// The context below an open call, if that call is the one of the instruction at an address.
fn caller(call: &Context, at: Addr) -> Option<u32>
    ensures { result ≡ (if call.now.returns == (at + 4) % 2 ^ 32 then call.now.parent else None) }
{
    if call.returns == at.wrapping_add(4) {
        call.parent
    } else {
        None
    }
}

// Whether the innermost open calls of a context are those of the call string.
fn calls_are(contexts: &[Context], context: u32, within: &[Addr]) -> bool
    requires known { context < length contexts.now }
    requires parents { ArePlaced contexts.now }
    ensures { IsFitting contexts.now context within.now result }
{
    let mut rest = within;
    let mut inner = context;
    while let Some((at, outer)) = rest.split_last() {
        match caller(&contexts[inner as usize], *at) {
            Some(parent) => inner = parent,
            None => return false,
        }
        rest = outer;
    }
    true
}

// Whether a fact's address and call string fit a node.
pub fn is_fitting(contexts: &[Context], node: &Node, at: Addr, within: &[Addr]) -> bool
    requires known { node.now.context < length contexts.now }
    requires parents { ArePlaced contexts.now }
    ensures { (p : Position) → IsAt contexts.now node.now p → result ≡ fits at within.now p }
{
    if node.pc != at {
        return false;
    }
    calls_are(contexts, node.context, within)
}
