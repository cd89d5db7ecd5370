//! Faults, and counts against the hook content formula. Worked lists stand as rows under tests/.
use crystal_cartan::{Cartan, Kind};
use std::alloc::Global;
use tableau_census::{CensusFault, census};
use tableau_reading::Shape;
use tensor_words::{Codes, Order};

/// The census of the shape with these rows.
fn listed(
    alloc: Global,
    kind: Kind,
    rank: u8,
    rows: &[u32],
    limit: u32,
) -> Option<Result<Codes, CensusFault>> {
    let shape = Shape::new(rows, Cartan::new(kind, rank).ok()?).ok()?;
    Some(census(alloc, &shape.ordered(Order::Standard), limit))
}

/// Why there is no census.
fn fault(alloc: Global, kind: Kind, rank: u8, rows: &[u32], limit: u32) -> Option<CensusFault> {
    match listed(alloc, kind, rank, rows, limit) {
        Some(Err(fault)) => Some(fault),
        _ => None,
    }
}

#[test]
fn faults(rt: HostRuntime) {
    let table: [(Kind, u8, &[u32], u32, Option<CensusFault>); 6] = [
        (Kind::B, 2, &[2, 1], 100, Some(CensusFault::NotTypeA)),
        (Kind::C, 3, &[1], 0, Some(CensusFault::NotTypeA)),
        (Kind::D, 4, &[1, 1], 100, Some(CensusFault::NotTypeA)),
        (Kind::A, 2, &[2, 1], 7, Some(CensusFault::TooMany)),
        (Kind::A, 2, &[2, 1], 8, None),
        (Kind::A, 2, &[1, 1, 1], 0, Some(CensusFault::TooMany)),
    ];
    for (kind, rank, rows, limit, wanted) in table {
        assert_eq!(rt; fault(rt.alloc(), kind, rank, rows, limit), wanted);
    }
}

/// How many boxes stand beneath the box in this row and column, from 0.
fn leg(rows: &[u32], row: usize, column: u32) -> u64 {
    let mut boxes = 0u64;
    for (beneath, length) in rows.iter().enumerate() {
        if beneath > row && *length > column {
            boxes = boxes.wrapping_add(1);
        }
    }
    boxes
}

/// The product of the letters' number and the contents over a row, and that of its hook lengths.
fn row_products(rows: &[u32], row: usize, letters: u32) -> Option<(u64, u64)> {
    let length = *rows.get(row)?;
    let mut contents = 1u64;
    let mut hooks = 1u64;
    for column in 0..length {
        let content = (u64::from(letters) + u64::from(column)).checked_sub(row as u64)?;
        contents = contents.checked_mul(content)?;
        let hook = u64::from(length - column).checked_add(leg(rows, row, column))?;
        hooks = hooks.checked_mul(hook)?;
    }
    Some((contents, hooks))
}

/// The number of semistandard tableaux by the hook content formula.
fn hook_content(rows: &[u32], letters: u32) -> Option<u64> {
    let mut contents = 1u64;
    let mut hooks = 1u64;
    for row in 0..rows.len() {
        let (content, hook) = row_products(rows, row, letters)?;
        contents = contents.checked_mul(content)?;
        hooks = hooks.checked_mul(hook)?;
    }
    contents.checked_div(hooks)
}

/// The count by the formula, if there are just so many tableaux.
fn counted(alloc: Global, rank: u8, rows: &[u32]) -> Option<u32> {
    let count = u32::try_from(hook_content(rows, u32::from(rank) + 1)?).ok()?;
    let list = listed(alloc, Kind::A, rank, rows, count)?.ok()?;
    let fewer = fault(alloc, Kind::A, rank, rows, count.checked_sub(1)?);
    if list.len() == count as usize && fewer == Some(CensusFault::TooMany) {
        Some(count)
    } else {
        None
    }
}

#[test]
fn counts(rt: HostRuntime) {
    let table: [(u8, &[u32], u32); 12] = [
        (1, &[1], 2),
        (1, &[3, 1], 3),
        (1, &[2, 2], 1),
        (2, &[2, 1], 8),
        (2, &[3, 1], 15),
        (2, &[2, 2], 6),
        (3, &[2, 1, 1], 15),
        (3, &[2, 2], 20),
        (3, &[3, 2, 1], 64),
        (4, &[1, 1, 1], 10),
        (4, &[4, 3, 2, 1], 1024),
        (8, &[2], 45),
    ];
    for (rank, rows, count) in table {
        assert_eq!(rt; counted(rt.alloc(), rank, rows), Some(count));
    }
}
