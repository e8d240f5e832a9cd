ghost use Rattle.wc_nest.specs.Inner.Ways.{way_ends};

use wc_model::walks::Arrow;

// A step of a level, with its place among the steps of the graph.
#[derive(Clone, Copy)]
pub struct Way {
    pub source: u32,
    pub target: u32,
    pub place: usize,
}

impl Arrow for Way {
    ghost ends = { way_ends };

    fn source(&self) -> u32 {
        self.source
    }

    fn target(&self) -> Option<u32> {
        Some(self.target)
    }
}
