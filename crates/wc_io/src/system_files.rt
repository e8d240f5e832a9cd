ghost use Rattle.wc_io.specs.Adapted.{ReadsOf, WritesOf};
ghost use Rattle.std.specs.Io.{ReadsAtMost, WritesAtMost};
ghost use Rattle.std.specs.Io.KnownBytes.{Keeps};

use std::io::{Read, Result, Write};

/// A file of the system, which tells nothing by itself; its calls do what those of the file do.
#[derive(Drop)]
pub struct SystemFile<F: Read + Write> {
    pub file: F,
}

impl<F: Read + Write> Read for SystemFile<F> {
    fn read(&mut self, buffer: &mut [u8]) -> Result<usize>
        ensures bound { ReadsAtMost result buffer.new }
        ensures bytes { ReadsOf F.remaining self.old.file self.new.file result buffer.new }
    {
        self.file.read(buffer)
    }
}

impl<F: Read + Write> Write for SystemFile<F> {
    fn write(&mut self, piece: &[u8]) -> Result<usize>
        ensures bound { WritesAtMost result piece.now }
        ensures bytes { WritesOf F.contents self.old.file self.new.file result piece.now }
    {
        self.file.write(piece)
    }

    fn flush(&mut self) -> Result<()>
        ensures kept { Keeps (F.contents self.old.file) (F.contents self.new.file) }
    {
        self.file.flush()
    }
}
