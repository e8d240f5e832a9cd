ghost use Rattle.std.specs.Prelude.{◌≡◌, ℕ, ◌<◌, ◌^◌, IfSome, length};
ghost use Rattle.wc_ages.specs.States.{holds_line, may_ages, must_ages};
ghost use Rattle.wc_model.specs.Cache.Ages.{Ages};
ghost use Rattle.wc_mustmay.specs.Inner.OneSet.{AreNamedIn, AreWritten, new_flag};

use wc_ages::{May, Must};

/// A state that tells whether a line is there.
pub trait Holds: Drop {
    ghost ages: { Self → Ages };

    ghost named: { Self → ℕ };

    fn has(&self, line: u32) -> bool
        requires { line < named self.now }
        ensures { result ≡ holds_line (ages self.now) line };
}

impl Holds for Must {
    ghost ages = { must_ages };

    ghost named = { λ m. 2 ^ 32 };

    fn has(&self, line: u32) -> bool {
        self.holds(line)
    }
}

impl Holds for May {
    ghost ages = { may_ages };

    ghost named = { λ m. length m.ages };

    fn has(&self, line: u32) -> bool {
        self.holds(line)
    }
}

fn flag_of<L: Holds>(state: &Option<L>, line: Option<u32>, flag: bool) -> bool
    requires { IfSome state.now (λ a. IfSome line (λ l. l < L.named a)) }
    ensures { result ≡ new_flag L.ages state.now line flag }
{
    match (state, line) {
        (Some(state), Some(line)) => state.has(line),
        _ => flag,
    }
}

/// The flags of the nodes that fetch a line.
pub fn write_flags<L: Holds>(states: &[Option<L>], lines: &[Option<u32>], flags: &mut Vec<bool>)
    requires states { length states.now ≡ length flags.old.items }
    requires lines { length lines.now ≡ length flags.old.items }
    requires named { AreNamedIn L.named states.now lines.now }
    ensures count { length flags.new.items ≡ length flags.old.items }
    ensures flags { AreWritten L.ages states.now lines.now flags.old.items flags.new.items }
{
    for node in 0..lines.len() {
        flags[node] = flag_of(&states[node], lines[node], flags[node]);
    }
}
