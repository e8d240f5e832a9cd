ghost use Rattle.wc_nestsolve.specs.Laws.{LoopsArePriced};

/// A law alone: with stated limits or without, potentials and prices of the loops alone meet the line of each step.
pub fn loops_are_priced()
    ensures { LoopsArePriced }
{}
