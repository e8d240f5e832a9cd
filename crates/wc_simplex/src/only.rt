ghost use Rattle.std.specs.Prelude.{◌≡◌};
ghost use Rattle.wc_simplex.specs.Inner.Only.{and_one, through};

/// Whether there is no step, one, or several.
#[derive(Clone, Copy, Debug)]
pub enum Only {
    Nothing,
    One(usize),
    Several,
}

impl Only {
    /// With one more.
    pub fn with(self, place: usize) -> Only
        ensures { result ≡ and_one place self }
    {
        match self {
            Only::Nothing => Only::One(place),
            Only::One(_) => Only::Several,
            Only::Several => Only::Several,
        }
    }

    /// The one step out of a node that is passed through, from what leads to it and what leaves it.
    pub fn through(ins: Only, outs: Only, is_start: bool) -> Option<usize>
        ensures { result ≡ through is_start ins outs }
    {
        match (ins, outs) {
            (Only::One(_), Only::One(out)) => { if is_start { None } else { Some(out) } }
            _ => None,
        }
    }
}
