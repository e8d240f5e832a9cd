ghost use Rattle.std.specs.Prelude.{◌≡◌, ◌<◌, ◌^◌, length};
ghost use Rattle.wc_model.specs.Cache.Timing.{timed_step};
ghost use Rattle.wc_model.specs.Program.Paths.{class_cycles, insn_cycles};

use wc_model::{Class, Cycles, Graph, Insn, Step};

/// The cycles of a step without those of its fetch.
pub fn base_cycles(graph: &Graph, cycles: &Cycles, step: &Step) -> u64
    requires { step.now.source < length graph.now.nodes }
    ensures value { result ≡ (timed_step graph.now cycles.now step.now).base }
    ensures small { result < 2 ^ 32 }
{
    let node = graph.nodes.items()[step.source as usize];
    insn_cycles(*cycles, step.taken, node.insn)
}

fn insn_cycles(cycles: Cycles, taken: bool, insn: Insn) -> u64
    ensures value { result ≡ insn_cycles cycles taken insn }
    ensures small { result < 2 ^ 32 }
{
    let moved = cycles.per_register as u64 * insn.moved as u64;
    let taken = if taken { cycles.taken as u64 } else { 0 };
    class_cycles(&cycles, insn.class) as u64 + moved + taken
}

fn class_cycles(cycles: &Cycles, class: Class) -> u16
    ensures { result ≡ class_cycles cycles.now class }
{
    match class {
        Class::Alu => cycles.alu,
        Class::Mul => cycles.mul,
        Class::Div => cycles.div,
        Class::Load => cycles.load,
        Class::Store => cycles.store,
        Class::Multi => cycles.multi,
        Class::Branch => cycles.branch,
        Class::System => cycles.system,
    }
}
