ghost use Rattle.std.specs.Prelude.{◌≡◌, ◌+◌, ◌*◌, ◌≤◌, ◌++◌, All, IfOk, IfSome, OnOk, flat_map, length, option_to_list};
ghost use Rattle.wc_elf.specs.Readings.{Checks, IsInside, Reads};
ghost use Rattle.wc_model.specs.Program.Elf.{entries};
ghost use Rattle.wc_model.specs.Program.Image.{range_checks, ranges_of, segment_checks, segment_range};

use crate::fields::{half, word};
use crate::headers::segment_at;
use std::alloc::{AllocError, Global};
use wc_base::{Fault, Trouble};
use wc_model::Range;

const ADDRESSES: u64 = 1 << 32;

/// The range of the program header, where it is an executable one.
fn range_at(file: &[u8], header: usize) -> Result<Option<Range>, Fault>
    requires { header + 32 ≤ length file.now }
    ensures checks { Checks (segment_checks file.now header) result }
    ensures range { IfOk result (λ range. option_to_list range ≡ segment_range file.now header) }
    ensures inside { IfOk result (λ range. IfSome range (IsInside (length file.now))) }
{
    let segment = segment_at(file, header);
    if !segment.executable {
        return Ok(None);
    }
    let offset = segment.offset as u64;
    if offset + segment.size as u64 > file.len() as u64 {
        return Err(Fault::Truncated(offset));
    }
    if segment.address as u64 + segment.size as u64 > ADDRESSES {
        return Err(Fault::BadTable(header as u64));
    }
    Ok(Some(Range {
        start: segment.address,
        offset,
        length: segment.size,
    }))
}

/// Adds the range of the program header, where it is an executable one.
fn add_range(ranges: &mut Vec<Range>, file: &[u8], header: usize) -> Result<(), Trouble>
    requires { header + 32 ≤ length file.now }
    ensures reads { Reads (segment_checks file.now header) (λ _. ranges.new.items ≡ ranges.old.items ++ segment_range file.now header) result }
    ensures inside { OnOk result (All (IsInside (length file.now)) ranges.old.items → All (IsInside (length file.now)) ranges.new.items) }
{
    match range_at(file, header) {
        Ok(Some(range)) => match ranges.push(range) {
            Ok(()) => Ok(()),
            Err(_) => Err(Trouble::Memory(AllocError)),
        },
        Ok(None) => Ok(()),
        Err(fault) => Err(Trouble::Fault(fault)),
    }
}

/// The ranges of the `count` program headers from `table` on.
fn ranges_in(alloc: Global, file: &[u8], table: usize, count: usize) -> Result<Vec<Range>, Trouble>
    requires { table + 32 * count ≤ length file.now }
    ensures reads { Reads (flat_map (segment_checks file.now) (entries table 32 count)) (λ ranges. ranges.items ≡ flat_map (segment_range file.now) (entries table 32 count)) result }
    ensures inside { IfOk result (λ ranges. All (IsInside (length file.now)) ranges.items) }
{
    let mut ranges = Vec::new(alloc);
    for index in 0..count {
        if let Err(trouble) = add_range(&mut ranges, file, table + 32 * index) {
            return Err(trouble);
        }
    }
    Ok(ranges)
}

/// The executable ranges of the file, in the order of its program headers.
pub fn read_ranges(alloc: Global, file: &[u8]) -> Result<Vec<Range>, Trouble>
    requires { 52 ≤ length file.now }
    ensures reads { Reads (range_checks file.now) (λ ranges. ranges.items ≡ ranges_of file.now) result }
    ensures inside { IfOk result (λ ranges. All (IsInside (length file.now)) ranges.items) }
{
    let count = half(file, 44) as usize;
    if count == 0 {
        return Ok(Vec::new(alloc));
    }
    if half(file, 42) != 32 {
        return Err(Trouble::Fault(Fault::BadTable(42)));
    }
    let table = word(file, 28) as usize;
    if table + 32 * count > file.len() {
        return Err(Trouble::Fault(Fault::Truncated(table as u64)));
    }
    ranges_in(alloc, file, table, count)
}
