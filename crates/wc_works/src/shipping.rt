ghost use Rattle.std.specs.Prelude.{◌≡◌, IfErr, IfOk};
ghost use Rattle.wc_model.specs.Workspace.Kinds.{describe, eleven_kinds};
ghost use Rattle.wc_works.specs.Shipped.{IsMemory};

use crate::required::kind;
use std::alloc::{AllocError, Global};
use wc_model::{Describe, Kind, Part, Table};
use wc_registry::{Registry, RegistryFault};

fn described(
    alloc: Global,
    provides: Kind,
    required: &[Kind],
    reads: &[Part],
) -> Result<Describe, AllocError>
    ensures { IfOk result (λ d. d ≡ describe provides required.now reads.now) }
{
    let mut kinds = Vec::new(alloc);
    kinds.extend_from_slice(required)?;
    let mut parts = Vec::new(alloc);
    parts.extend_from_slice(reads)?;
    Ok(Describe {
        provides,
        requires_: Table::new(kinds),
        reads: Table::new(parts),
    })
}

// GRAPH, NEST, BOUNDS, LINES, MUST, MAY, CATEGORY, COST, SYSTEM, SOLUTION and BOUND.
fn eleven(alloc: Global) -> Result<Vec<Describe>, AllocError>
    ensures { IfOk result (λ ds. ds.items ≡ eleven_kinds) }
{
    let mut list = Vec::new(alloc);
    list.push(described(alloc, kind(1), &[], &[Part::Steer])?)?;
    list.push(described(alloc, kind(2), &[kind(1)], &[])?)?;
    list.push(described(alloc, kind(3), &[kind(1), kind(2)], &[Part::Loops])?)?;
    list.push(described(alloc, kind(4), &[kind(1)], &[Part::Cache])?)?;
    list.push(described(alloc, kind(5), &[kind(1), kind(4)], &[Part::Cache])?)?;
    list.push(described(alloc, kind(6), &[kind(1), kind(4)], &[Part::Cache])?)?;
    list.push(described(alloc, kind(7), &[kind(1), kind(4), kind(5), kind(6)], &[])?)?;
    list.push(described(alloc, kind(8), &[kind(1), kind(7)], &[Part::Cycles])?)?;
    list.push(described(
        alloc,
        kind(9),
        &[kind(1), kind(2), kind(3), kind(8)],
        &[Part::Limits],
    )?)?;
    list.push(described(alloc, kind(10), &[kind(1), kind(2), kind(9)], &[])?)?;
    list.push(described(alloc, kind(11), &[kind(9), kind(10)], &[])?)?;
    Ok(list)
}

/// The eleven kinds: what each requires, and which parts of the inputs it reads. No fault comes but want of memory.
pub fn shipped(alloc: Global) -> Result<Registry, RegistryFault>
    ensures kinds { IfOk result (λ registry. registry ≡ eleven_kinds) }
    ensures memory { IfErr result IsMemory }
{
    match eleven(alloc) {
        Ok(list) => Registry::new(alloc, list),
        Err(error) => Err(RegistryFault::Memory(error)),
    }
}
