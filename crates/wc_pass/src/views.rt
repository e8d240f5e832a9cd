// What a seat knows, and what each kind of step does to it. No view is ever made: it is there for proofs alone.
use atomic_table::{Join, Play, Split, TableRule};
use std::collections::LinkedList;
use std::marker::{Brand, PhantomData};
use wc_model::Entry;

/// A list that the seat has outgrown; `own` where it was the seat's own.
pub struct Old {
    pub own: bool,
    pub list: LinkedList<Entry>,
}

/// What one seat knows: the list that it has seen, whether it is the pen's, for the pen the number of sessions
/// made, its session or 0, and the lists that it has outgrown.
pub struct View {
    pub seen: LinkedList<Entry>,
    pub pen: bool,
    pub made: u64,
    pub session: u64,
    pub olds: LinkedList<Old>,
}

pub struct Law;

impl TableRule<(), View, ()> for Law {
    ghost use Rattle.wc_pass.specs.Rule.{Kept};
    ghost use Rattle.wc_pass.specs.Views.{first_view};

    ghost holds = { λ _ s. Kept s.words s.views };

    ghost first = { λ _. first_view };
}

/// Names the entry that a store publishes.
pub trait Says {
    ghost use Rattle.wc_model.specs.declared.entries.Entry.{Entry};

    ghost entry: { Entry };
}

impl Says for Brand {
    ghost use Rattle.wc_model.specs.declared.entries.Entry.TheVariants.{List};

    ghost entry = { List 0 0 };
}

/// A store: the seat's list gets one entry.
pub struct Adds<E: Says> {
    of: PhantomData<E>,
}

impl<E: Says> Play<(), View> for Adds<E> {
    ghost use Rattle.std.specs.Prelude.{◌≡◌};
    ghost use Rattle.wc_pass.specs.Views.{added};

    ghost then = { λ s v n w. w ≡ (added v.0 E.entry, v.1) };
}

/// A load: the seat learns what the rule says of its outgrown lists, and drops them.
pub struct Learns;

impl Play<(), View> for Learns {
    ghost use Rattle.std.specs.Prelude.{◌≡◌};
    ghost use Rattle.wc_pass.specs.Rule.{Learned};
    ghost use Rattle.wc_pass.specs.Views.{cleared};

    ghost then = { λ s v n w. (w ≡ (cleared v.0, v.1)) × Learned v.0 };
}

/// The pen makes the pass of the next session.
pub struct NewPass;

impl Split<View> for NewPass {
    ghost use Rattle.wc_pass.specs.Views.{one_more, new_pass};

    ghost left = { one_more };

    ghost right = { new_pass };
}

/// A note: a copy of what was seen, which the one that learns takes in.
pub struct Copied;

impl Split<View> for Copied {
    ghost use Rattle.wc_pass.specs.Views.{copy_of};

    ghost left = { λ v. v };

    ghost right = { copy_of };
}

impl Join<View> for Copied {
    ghost use Rattle.wc_pass.specs.Views.{with_copy, spent_view};

    ghost both = { with_copy };

    ghost spent = { spent_view };
}

/// The pen's role, which goes to a pass and back.
pub struct Role;

impl Split<View> for Role {
    ghost use Rattle.wc_pass.specs.Views.{without_role, role_of};

    ghost left = { without_role };

    ghost right = { role_of };
}

impl Join<View> for Role {
    ghost use Rattle.wc_pass.specs.Views.{with_role, spent_view};

    ghost both = { with_role };

    ghost spent = { spent_view };
}
