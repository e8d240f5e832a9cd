use super::*;
use std::alloc::{AllocError, Global};
use std::test::Fail;
use wc_model::Table;

// A kind, the kinds that it requires, with 0 for none, and the part that it reads.
type Row = (u8, [u8; 4], Option<Part>);

// the eleven kinds of features, the last one first
const FEATURES: [Row; 11] = [
    (11, [9, 10, 0, 0], None),
    (10, [1, 2, 9, 0], None),
    (9, [1, 2, 3, 8], Some(Part::Limits)),
    (8, [1, 7, 0, 0], Some(Part::Cycles)),
    (7, [1, 4, 5, 6], None),
    (6, [1, 4, 0, 0], Some(Part::Cache)),
    (5, [1, 4, 0, 0], Some(Part::Cache)),
    (4, [1, 0, 0, 0], Some(Part::Cache)),
    (3, [1, 2, 0, 0], Some(Part::Loops)),
    (2, [1, 0, 0, 0], None),
    (1, [0; 4], Some(Part::Steer)),
];

fn list(alloc: Global, rows: &[Row]) -> Result<Vec<Describe>, AllocError> {
    let mut list = Vec::new(alloc);
    for (provides, requires_, reads) in rows {
        let mut kinds = Vec::new(alloc);
        for number in requires_ {
            if let Some(kind) = Kind::new(*number) {
                kinds.push(kind)?;
            }
        }
        let mut parts = Vec::new(alloc);
        if let Some(part) = reads {
            parts.push(*part)?;
        }
        if let Some(provides) = Kind::new(*provides) {
            list.push(Describe {
                provides,
                requires_: Table::new(kinds),
                reads: Table::new(parts),
            })?;
        }
    }
    Ok(list)
}

fn registry(alloc: Global, rows: &[Row]) -> Result<Registry, RegistryFault> {
    Registry::new(alloc, list(alloc, rows)?)
}

fn refusal(alloc: Global, rows: &[Row]) -> Option<RegistryFault> {
    match registry(alloc, rows) {
        Ok(_registry) => None,
        Err(fault) => Some(fault),
    }
}

#[test]
fn a_list_is_refused_by_its_first_fault_with_the_least_kind(rt: HostRuntime) -> Result<(), Fail> {
    let alloc = rt.alloc();
    let none = [0; 4];
    let cycle = refusal(alloc, &[(2, [3, 0, 0, 0], None), (3, [2, 0, 0, 0], None)]);
    assert_eq!(rt; cycle, Kind::new(2).map(|kind| RegistryFault::Cycle(kind)));
    let missing = refusal(alloc, &[(2, [9, 0, 0, 0], None)]);
    assert_eq!(rt;
        missing,
        Kind::new(9).map(|kind| RegistryFault::Missing(kind))
    );
    let double = refusal(alloc, &[(4, none, None), (4, none, None)]);
    assert_eq!(rt;
        double,
        Kind::new(4).map(|kind| RegistryFault::Double(kind))
    );
    let all = [
        (5, [5, 9, 0, 0], None),
        (7, none, None),
        (7, none, None),
        (6, none, None),
        (6, none, None),
    ];
    assert_eq!(rt;
        refusal(alloc, &all),
        Kind::new(6).map(|kind| RegistryFault::Double(kind))
    );
    let two = [(5, [5, 9, 8, 0], None)];
    assert_eq!(rt;
        refusal(alloc, &two),
        Kind::new(8).map(|kind| RegistryFault::Missing(kind))
    );
    let led = [
        (9, [9, 0, 0, 0], None),
        (7, [5, 0, 0, 0], None),
        (5, [7, 0, 0, 0], None),
        (3, [5, 0, 0, 0], None),
    ];
    assert_eq!(rt;
        refusal(alloc, &led),
        Kind::new(5).map(|kind| RegistryFault::Cycle(kind))
    );
    Ok(())
}

fn ordered(alloc: Global, rows: &[Row]) -> Result<Vec<u8>, Fail> {
    let mut numbers = Vec::new(alloc);
    if let Ok(registry) = registry(alloc, rows) {
        for kind in registry.order() {
            numbers.push(kind.number())?;
        }
    }
    Ok(numbers)
}

#[test]
fn each_kind_comes_after_what_it_requires_the_least_first(rt: HostRuntime) -> Result<(), Fail> {
    let alloc = rt.alloc();
    let features = ordered(alloc, &FEATURES)?;
    assert_eq!(rt;
        features.as_slice(),
        [1, 2, 3, 4, 5, 6, 7, 8, 9, 10, 11].as_slice()
    );
    let turned = ordered(
        alloc,
        &[
            (1, [3, 0, 0, 0], None),
            (2, [0; 4], None),
            (3, [0; 4], None),
        ],
    )?;
    assert_eq!(rt; turned.as_slice(), [2, 3, 1].as_slice());
    let behind = ordered(
        alloc,
        &[
            (1, [3, 0, 0, 0], None),
            (2, [1, 0, 0, 0], None),
            (3, [0; 4], None),
        ],
    )?;
    assert_eq!(rt; behind.as_slice(), [3, 1, 2].as_slice());
    Ok(())
}

// a letter for each part of the closure of a kind
fn closure(alloc: Global, registry: &Registry, number: u8) -> Result<Vec<u8>, AllocError> {
    let parts = [
        (b'S', Part::Steer),
        (b'O', Part::Loops),
        (b'L', Part::Limits),
        (b'A', Part::Cache),
        (b'Y', Part::Cycles),
    ];
    let mut letters = Vec::new(alloc);
    if let Some(kind) = Kind::new(number) {
        for (letter, part) in parts {
            if registry.reads(kind, part) {
                letters.push(letter)?;
            }
        }
    }
    Ok(letters)
}

#[test]
fn a_closure_has_the_parts_of_all_that_is_required(rt: HostRuntime) -> Result<(), Fail> {
    let alloc = rt.alloc();
    let rows = [
        (1, "S"),
        (2, "S"),
        (3, "SO"),
        (4, "SA"),
        (5, "SA"),
        (6, "SA"),
        (7, "SA"),
        (8, "SAY"),
        (9, "SOLAY"),
        (10, "SOLAY"),
        (11, "SOLAY"),
        (12, ""),
    ];
    let registry = registry(alloc, &FEATURES);
    assert!(rt; registry.is_ok());
    if let Ok(registry) = registry {
        for (number, parts) in rows {
            assert_eq!(rt;
                closure(alloc, &registry, number)?.as_slice(),
                parts.as_bytes()
            );
        }
    }
    Ok(())
}
