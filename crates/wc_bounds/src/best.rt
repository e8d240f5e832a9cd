ghost use Rattle.std.specs.Prelude.{◌≡◌, ◌<◌, length};
ghost use Rattle.wc_model.specs.Program.Positions.{Position};
ghost use Rattle.wc_bounds.specs.Inner.Best.{IsAt, ArePlaced, offered, better, best_of};

use crate::fitting::is_fitting;
use wc_model::{Context, Fact, Node};

// A stated bound, with the length of its call string.
#[derive(Clone, Copy)]
pub struct Best {
    pub depth: usize,
    pub bound: u32,
}

// The best with one more fact.
pub fn with_fact(best: Option<Best>, fact: &Fact, contexts: &[Context], node: &Node) -> Option<Best>
    requires known { node.now.context < length contexts.now }
    requires parents { ArePlaced contexts.now }
    ensures { (p : Position) → IsAt contexts.now node.now p → result ≡ best_of best (offered p fact.now) }
{
    best_among(best, offer(fact, contexts, node))
}

fn offer(fact: &Fact, contexts: &[Context], node: &Node) -> Option<Best>
    requires known { node.now.context < length contexts.now }
    requires parents { ArePlaced contexts.now }
    ensures { (p : Position) → IsAt contexts.now node.now p → result ≡ offered p fact.now }
{
    match fact {
        Fact::Loop {
            at,
            bound: Some(bound),
            within,
        } => {
            let calls = within.items();
            if is_fitting(contexts, node, *at, calls) {
                Some(Best {
                    depth: calls.len(),
                    bound: *bound,
                })
            } else {
                None
            }
        }
        _ => None,
    }
}

fn best_among(best: Option<Best>, offer: Option<Best>) -> Option<Best>
    ensures { result ≡ best_of best offer }
{
    match (best, offer) {
        (None, offer) => offer,
        (Some(b), None) => Some(b),
        (Some(b), Some(c)) => Some(better(b, c)),
    }
}

fn better(b: Best, c: Best) -> Best
    ensures { result ≡ better b c }
{
    if b.depth < c.depth {
        c
    } else if c.depth < b.depth {
        b
    } else if c.bound < b.bound {
        c
    } else {
        b
    }
}
