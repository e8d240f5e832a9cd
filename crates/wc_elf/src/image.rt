ghost use Rattle.std.specs.Prelude.{◌≡◌, ◌+◌, ◌++◌, ◌≤◌, All, IfOk, OnOk, Some, length};
ghost use Rattle.wc_base.specs.Troubles.{IfFault};
ghost use Rattle.wc_elf.specs.Readings.{Checks, IsInside, Reads};
ghost use Rattle.wc_model.specs.Program.Image.{IsImageOf, header_checks, image_fault, name_checks, names_of, range_checks, ranges_of};

use crate::fields::{half, word};
use crate::labels::read_names;
use crate::ranges::read_ranges;
use std::alloc::Global;
use wc_base::{Fault, Trouble};
use wc_model::{Image, Name, Range, Table};

const MAGIC: u32 = 0x464C457F;

const EXECUTABLE: u16 = 2;

const ARM: u16 = 40;

fn check_header(file: &[u8]) -> Result<(), Fault>
    ensures checks { Checks (header_checks file.now) result }
    ensures header { OnOk result (52 ≤ length file.now) }
{
    if file.len() < 52 {
        return Err(Fault::Truncated(0));
    }
    if word(file, 0) != MAGIC {
        return Err(Fault::NotArm(0));
    }
    if file[4] != 1 {
        return Err(Fault::NotArm(4));
    }
    if file[5] != 1 {
        return Err(Fault::NotArm(5));
    }
    if file[6] != 1 {
        return Err(Fault::NotArm(6));
    }
    if half(file, 16) != EXECUTABLE {
        return Err(Fault::NotArm(16));
    }
    if half(file, 18) != ARM {
        return Err(Fault::NotArm(18));
    }
    Ok(())
}

/// The ranges and the names of the file.
fn read_tables(alloc: Global, file: &[u8]) -> Result<(Vec<Range>, Vec<Name>), Trouble>
    requires { 52 ≤ length file.now }
    ensures reads { Reads (range_checks file.now ++ name_checks file.now) (λ tables. (tables.0.items ≡ ranges_of file.now) × (tables.1.items ≡ names_of file.now)) result }
    ensures ranges_inside { IfOk result (λ tables. All (IsInside (length file.now)) tables.0.items) }
    ensures names_inside { IfOk result (λ tables. All (λ n. n.offset + n.length ≤ length file.now) tables.1.items) }
{
    let ranges = match read_ranges(alloc, file) {
        Ok(ranges) => ranges,
        Err(trouble) => return Err(trouble),
    };
    match read_names(alloc, file) {
        Ok(names) => Ok((ranges, names)),
        Err(trouble) => Err(trouble),
    }
}

/// The image of an ELF file, which keeps its bytes.
///
/// Gives the fault of the first check that fails: `Truncated` with the offset of a piece that isn't wholly
/// in the file, `NotArm` with the offset of a field of another kind of file, `BadTable` with the offset of
/// a size, a header or a symbol that makes no sense.
pub fn read_image(alloc: Global, bytes: Vec<u8>) -> Result<Image, Trouble>
    ensures image { IfOk result (IsImageOf bytes.items) }
    ensures fault { IfFault result (λ fault. image_fault bytes.items ≡ Some fault) }
{
    let file = bytes.as_slice();
    if let Err(fault) = check_header(file) {
        return Err(Trouble::Fault(fault));
    }
    match read_tables(alloc, file) {
        Ok((ranges, names)) => Ok(Image {
            bytes: Table::new(bytes),
            ranges: Table::new(ranges),
            names: Table::new(names),
        }),
        Err(trouble) => Err(trouble),
    }
}
