ghost use Rattle.std.specs.Prelude.{◌≡◌, ◌-◌, ◌<◌, map, false, IfOk, OnOk};
ghost use Rattle.std.specs.Prelude.{vec_len, vec_capacity};
ghost use Rattle.wc_io.specs.Rows.{AddsFailed, marked, row_of, row_failed};

use std::alloc::AllocError;

/// A path that a house was asked for: as a sink or as a source, and whether it failed.
#[derive(Debug, Drop)]
pub struct OpenedRow {
    pub path: String,
    pub sink: bool,
    pub failed: bool,
}

/// A row that is yet to be pushed, and room for it.
pub fn prepare_row(
    rows: &mut Vec<OpenedRow>,
    path: &str,
    sink: bool,
) -> Result<OpenedRow, AllocError>
    ensures rows { rows.new.items ≡ rows.old.items }
    ensures room { OnOk result (vec_len rows.new < vec_capacity rows.new) }
    ensures row { IfOk result (λ r. row_of r ≡ row_failed path.now sink false) }
{
    rows.reserve(1)?;
    let path = String::from_str(*rows.allocator(), path)?;
    Ok(OpenedRow {
        path,
        sink,
        failed: false,
    })
}

/// Adds the row as one that failed.
pub fn refuse_row(rows: &mut Vec<OpenedRow>, mut row: OpenedRow)
    requires { vec_len rows.old < vec_capacity rows.old }
    ensures { AddsFailed (row_of row) (map row_of rows.old.items) (map row_of rows.new.items) }
{
    row.failed = true;
    let _ = rows.push(row);
}

/// Marks the row at that place, from 1, as failed where there were faults.
pub fn mark_row(rows: &mut Vec<OpenedRow>, place: u64, faults: u64)
    requires { 0 < place }
    ensures { map row_of rows.new.items ≡ marked (place - 1) faults (map row_of rows.old.items) }
{
    let index = (place - 1) as usize;
    if index < rows.len() {
        rows[index].failed |= faults > 0;
    }
}
