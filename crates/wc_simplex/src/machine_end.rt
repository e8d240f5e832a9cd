/// How the machine ends: at an optimum, where nothing is feasible, where a number left 128 bits, where a pivot too many
/// was due, or where no row left.
#[derive(Clone, Copy, Debug)]
pub enum MachineEnd {
    Best,
    Infeasible,
    Wide,
    Many,
    Endless,
}
