ghost use Rattle.std.specs.Prelude.{◌≡◌, ◌<◌, ◌≤◌, length, IfOk, OnOk, IfSome};
ghost use Rattle.wc_io.specs.Leaving.{Leaves, NoPath};
ghost use Rattle.wc_io.specs.Reading.{AddsReadRow, IsLong};
ghost use Rattle.wc_io.specs.Telling.{IsThere};

use crate::{House, HouseError, ReadWhole, read_whole};
use std::alloc::Global;

/// The bytes of the file of a path, of which there are at most `most`. The house's list gains the path as a source,
/// or nothing where the house had no memory to open it. Of a house that tells its files nothing is read, and nothing
/// is too long, that isn't there.
pub fn read_file<H: House>(
    alloc: Global,
    house: &mut H,
    path: &str,
    most: usize,
) -> Result<Vec<u8>, ReadWhole>
    ensures bytes { IfOk result (λ v. IfSome (H.file house.old path.now) (λ all. v.items ≡ all)) }
    ensures short { IfOk result (λ v. length v.items ≤ most) }
    ensures there { OnOk result (IsThere (H.tells house.old) (H.file house.old path.now)) }
    ensures long { IsLong result → IfSome (H.file house.old path.now) (λ all. most < length all) }
    ensures long_there { IsLong result → IsThere (H.tells house.old) (H.file house.old path.now) }
    ensures house { Leaves H.House (AddsReadRow path.now result) NoPath house.old house.new }
{
    let mut source = match house.source(path) {
        Ok(source) => source,
        Err(HouseError::Failed) => return Err(ReadWhole::Failed),
        Err(HouseError::Memory(error)) => return Err(ReadWhole::Memory(error)),
    };
    let bytes = read_whole(alloc, &mut source, most);
    house.return_source(source);
    bytes
}
