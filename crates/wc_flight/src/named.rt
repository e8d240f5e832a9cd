use std::marker::Brand;

/// Names a desk and what a workspace is opened with, for contracts alone.
pub trait Named {
    ghost use Rattle.atomic_table.specs.Seated.{TableId};
    ghost use Rattle.wc_model.specs.Workspace.States.{Opening};

    ghost desk: { TableId };

    ghost opening: { Opening };
}

impl Named for Brand {
    ghost use Rattle.wc_flight.specs.Openings.{no_desk, no_opening};

    ghost desk = { no_desk };

    ghost opening = { no_opening };
}
