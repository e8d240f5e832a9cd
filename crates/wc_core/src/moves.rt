// What moves between the store and a ticket.
ghost use Rattle.std.specs.Prelude.{◌≡◌, ◌≤◌, ◌+◌, length};
ghost use Rattle.wc_core.specs.Inner.Lines.{AllWide};
ghost use Rattle.wc_core.specs.Inner.Moves.{CanSettle, pulled, pulled_one, put, put_one, settled, settled_lines};

use crate::shelves::Shelf;
use crate::store::Store;
use crate::tickets::{Gift, Ticket};
use wc_model::Kind;

// Takes the copy of a key that the ask doesn't have yet.
fn pull_one<V: Drop>(store: &mut Store<V>, key: (Kind, u64), ticket: &mut Ticket<V>)
    requires { AllWide ticket.old.session store.old.lines }
    ensures lines { store.new.lines ≡ (pulled_one ticket.old.name ticket.old.session key ticket.old.had store.old.lines).1 }
    ensures ticket { ticket.new ≡ record ticket.old { had = (pulled_one ticket.old.name ticket.old.session key ticket.old.had store.old.lines).0 } }
    ensures spare { store.new.spare ≡ store.old.spare }
    ensures wide { AllWide ticket.old.session store.new.lines }
{
    if !ticket.given.has(key.0) {
        let taken = store.take(
            ticket.job.name.items(),
            key.0,
            key.1,
            ticket.session as usize,
        );
        if let Some(copy) = taken {
            ticket.given.hold(key.0, copy);
        }
    }
}

/// Takes the session's copy of each key that the ask doesn't have yet.
pub fn pull<V: Drop>(store: &mut Store<V>, keys: &[(Kind, u64)], ticket: &mut Ticket<V>)
    requires { AllWide ticket.old.session store.old.lines }
    ensures lines { store.new.lines ≡ (pulled ticket.old.name ticket.old.session keys.now ticket.old.had store.old.lines).1 }
    ensures ticket { ticket.new ≡ record ticket.old { had = (pulled ticket.old.name ticket.old.session keys.now ticket.old.had store.old.lines).0 } }
    ensures spare { store.new.spare ≡ store.old.spare }
    ensures wide { length ticket.old.had ≡ 65 }
{
    ticket.given.is_wide();
    for key in keys {
        pull_one(store, *key, ticket);
    }
}

fn put_one<V: Drop>(store: &mut Store<V>, key: (Kind, u64), ticket: &mut Ticket<V>)
    requires { AllWide ticket.old.session store.old.lines }
    ensures lines { store.new.lines ≡ (put_one ticket.old.name ticket.old.session key ticket.old.had store.old.lines).1 }
    ensures ticket { ticket.new ≡ record ticket.old { had = (put_one ticket.old.name ticket.old.session key ticket.old.had store.old.lines).0 } }
    ensures spare { store.new.spare ≡ store.old.spare }
    ensures wide { AllWide ticket.old.session store.new.lines }
{
    if let Some(copy) = ticket.given.take(key.0) {
        store.put_back(
            ticket.job.name.items(),
            key.0,
            key.1,
            ticket.session as usize,
            copy,
        );
    }
}

/// Puts the ask's copies back where their keys still stand.
pub fn put<V: Drop>(store: &mut Store<V>, keys: &[(Kind, u64)], ticket: &mut Ticket<V>)
    requires { AllWide ticket.old.session store.old.lines }
    ensures lines { store.new.lines ≡ (put ticket.old.name ticket.old.session keys.now ticket.old.had store.old.lines).1 }
    ensures ticket { ticket.new ≡ record ticket.old { had = (put ticket.old.name ticket.old.session keys.now ticket.old.had store.old.lines).0 } }
    ensures spare { store.new.spare ≡ store.old.spare }
{
    for key in keys {
        put_one(store, *key, ticket);
    }
}

/// Keeps what a run gave where it is current, and gives the ask its own copy.
pub fn settle<V: Drop>(
    store: &mut Store<V>,
    ticket: &mut Ticket<V>,
    key: (Kind, u64),
    gave: Option<Gift<V>>,
    current: bool,
)
    requires { CanSettle store.old.spare current gave store.old.lines }
    ensures lines { store.new.lines ≡ settled_lines key.0 key.1 current gave store.old.lines }
    ensures ticket { ticket.new ≡ settled key.0 gave ticket.old }
    ensures spare { store.old.spare ≤ store.new.spare + 1 }
    ensures wide { length ticket.old.had ≡ 65 }
{
    ticket.given.is_wide();
    match gave {
        None => ticket.memory = true,
        Some(gift) => {
            let Gift {
                own,
                copies,
                name,
                row,
            } = gift;
            if current {
                store.keep(name, row, Shelf::new(key.0, key.1, copies));
            }
            ticket.given.hold(key.0, own);
        }
    }
}
