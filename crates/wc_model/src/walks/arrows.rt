ghost use Rattle.std.specs.Prelude.{◌≡◌};
ghost use Rattle.wc_model.specs.Flow.Ends.{Ends, system_ends, step_ends};

use crate::{Step, SystemStep};

/// A step from one node to another or to the end, whatever else it carries.
pub trait Arrow: Copy {
    ghost ends: { Self → Ends };

    fn source(&self) -> u32
        ensures { result ≡ (ends self.now).source };

    fn target(&self) -> Option<u32>
        ensures { result ≡ (ends self.now).target };
}

impl Arrow for SystemStep {
    ghost ends = { system_ends };

    fn source(&self) -> u32 {
        self.source
    }

    fn target(&self) -> Option<u32> {
        self.target
    }
}

impl Arrow for Step {
    ghost ends = { step_ends };

    fn source(&self) -> u32 {
        self.source
    }

    fn target(&self) -> Option<u32> {
        self.target
    }
}
