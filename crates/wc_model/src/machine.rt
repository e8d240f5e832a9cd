ghost use Rattle.std.specs.Prelude.{◌≤◌, IsTrue};
ghost use Rattle.wc_model.specs.Cache.Ranges.{are_cache_numbers, uncached_costs_nothing};

/// Cycles of each instruction class, of a taken step, of each register of a load or store multiple, and of
/// a fetch that hits or misses the instruction cache.
#[derive(Clone, Copy, Debug, PartialEq, Eq)]
pub struct Cycles {
    pub alu: u16,
    pub mul: u16,
    pub div: u16,
    pub load: u16,
    pub store: u16,
    pub multi: u16,
    pub branch: u16,
    pub system: u16,
    pub taken: u16,
    pub per_register: u16,
    pub hit: u16,
    pub miss: u16,
    ghost hit_is_least: { hit ≤ miss },
}

/// What the instruction cache holds when the task starts.
#[derive(Clone, Copy, Debug, PartialEq, Eq)]
pub enum StartState {
    Empty,
    Any,
}

/// An instruction cache with the LRU policy. `line` is in bytes.
#[derive(Clone, Copy, Debug, PartialEq, Eq)]
pub struct Cache {
    pub sets: u16,
    pub ways: u8,
    pub line: u8,
    pub start: StartState,
    ghost in_range: { IsTrue (are_cache_numbers sets ways line) },
}

/// The processor's stated timing.
#[derive(Clone, Copy, Debug, PartialEq, Eq)]
pub struct Hardware {
    pub cycles: Cycles,
    pub cache: Option<Cache>,
    ghost uncached: { IsTrue (uncached_costs_nothing cycles.hit cycles.miss cache) },
}
