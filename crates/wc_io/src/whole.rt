ghost use Rattle.std.specs.Prelude.{◌≡◌, ◌<◌, ◌≤◌, length, IfOk, IfSome, IsErrOf};
ghost use Rattle.wc_io.specs.Causes.{Rose, HasCause};
ghost use Rattle.wc_io.specs.Writing.{WritesTo};

use crate::{Failed, Sink, Source};
use std::alloc::{AllocError, Global};
use thiserror::Error;

const CHUNK: usize = 65536;

/// Why a source wasn't read whole.
#[derive(Clone, Copy, Debug, PartialEq, Eq, Error)]
pub enum ReadWhole {
    #[error("too many bytes")]
    Long,
    #[error("a read failed")]
    Failed,
    #[error("out of memory")]
    Memory(AllocError),
}

/// All bytes that are left, of which there are at most `most`. `Long` comes where more than `most` bytes came,
/// so a source that never ends is read no further.
pub fn read_whole<S: Source>(
    alloc: Global,
    source: &mut S,
    most: usize,
) -> Result<Vec<u8>, ReadWhole>
    ensures bytes { IfOk result (λ v. IfSome (S.left source.old) (λ all. v.items ≡ all)) }
    ensures short { IfOk result (λ v. length v.items ≤ most) }
    ensures long { IsErrOf result ReadWhole.Long → IfSome (S.left source.old) (λ all. most < length all) }
    ensures failed { IsErrOf result ReadWhole.Failed → Rose (S.faults source.old) (S.faults source.new) }
    ensures later { S.faults source.old ≤ S.faults source.new }
    ensures place { S.place source.new ≡ S.place source.old }
{
    let mut bytes = Vec::new(alloc);
    let mut buffer = [0u8; CHUNK];
    loop {
        let count = match source.read(&mut buffer) {
            Ok(count) => count,
            Err(Failed) => return Err(ReadWhole::Failed),
        };
        if count == 0 {
            return Ok(bytes);
        }
        if count > most - bytes.len() {
            return Err(ReadWhole::Long);
        }
        bytes
            .extend_from_slice(&buffer[..count])
            .map_err(ReadWhole::Memory)?;
    }
}

/// Appends the whole text. After `Failed` a prefix of it was appended, which is shorter than the text.
pub fn write_whole<K: Sink>(sink: &mut K, text: &[u8]) -> Result<(), Failed>
    ensures { WritesTo K.Sink sink.old sink.new result text.now }
{
    let mut done = 0;
    while done < text.len() {
        match sink.write(&text[done..]) {
            Ok(count) => done += count,
            Err(Failed) => return Err(Failed),
        }
    }
    Ok(())
}
