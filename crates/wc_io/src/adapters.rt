ghost use Rattle.std.specs.Prelude.{◌≡◌, ◌<◌, ◌≤◌, [], map, length, None, false, IfOk};
ghost use Rattle.wc_io.specs.Adapted.{ReadsOf, WritesOf};
ghost use Rattle.wc_io.specs.Causes.{Counts, HasCause, IsWithin};
ghost use Rattle.wc_io.specs.Rows.{row_of};

use crate::opened::{mark_row, prepare_row, refuse_row};
use crate::{Failed, House, HouseError, OpenedRow, Sink, Source, SystemFile};
use std::alloc::Global;
use std::fs;
use std::io::{Read, Write};
use std::rt::Files;

/// A source over a reader of std, which tells what its reader tells.
#[derive(Drop)]
pub struct FileSource<F: Read> {
    pub place: u64,
    pub faults: u64,
    pub reader: F,
}

impl<F: Read> FileSource<F> {
    /// A source outside of any house.
    pub fn new(reader: F) -> Self
        ensures place { result.place ≡ 0 }
        ensures faults { result.faults ≡ 0 }
        ensures reader { result.reader ≡ reader }
    {
        FileSource {
            place: 0,
            faults: 0,
            reader,
        }
    }
}

impl<F: Read> Source for FileSource<F> {
    ghost left = { λ s. F.remaining s.reader };

    ghost place = { λ s. s.place };

    ghost faults = { λ s. s.faults };

    fn read(&mut self, buffer: &mut [u8]) -> Result<usize, Failed>
        ensures bound { IfOk result (λ n. n ≤ length buffer.new) }
        ensures bytes { ReadsOf F.remaining self.old.reader self.new.reader result buffer.new }
        ensures cause { HasCause self.old.faults self.new.faults result }
        ensures place { self.new.place ≡ self.old.place }
        ensures counts { Counts self.old.faults self.new.faults result }
    {
        match self.reader.read(buffer) {
            Ok(count) => Ok(count),
            Err(_) => {
                self.faults = self.faults.saturating_add(1);
                Err(Failed)
            }
        }
    }
}

/// A sink over a writer of std, which tells what its writer tells.
#[derive(Drop)]
pub struct FileSink<F: Write> {
    pub place: u64,
    pub faults: u64,
    pub writer: F,
}

impl<F: Write> FileSink<F> {
    /// A sink outside of any house.
    pub fn new(writer: F) -> Self
        ensures place { result.place ≡ 0 }
        ensures faults { result.faults ≡ 0 }
        ensures writer { result.writer ≡ writer }
    {
        FileSink {
            place: 0,
            faults: 0,
            writer,
        }
    }
}

impl<F: Write> Sink for FileSink<F> {
    ghost held = { λ k. F.contents k.writer };

    ghost place = { λ k. k.place };

    ghost faults = { λ k. k.faults };

    fn write(&mut self, piece: &[u8]) -> Result<usize, Failed>
        requires { 0 < length piece.now }
        ensures bound { IfOk result (IsWithin (length piece.now)) }
        ensures bytes { WritesOf F.contents self.old.writer self.new.writer result piece.now }
        ensures cause { HasCause self.old.faults self.new.faults result }
        ensures place { self.new.place ≡ self.old.place }
        ensures counts { Counts self.old.faults self.new.faults result }
    {
        match self.writer.write(piece) {
            Ok(count) if count > 0 => Ok(count),
            _ => {
                self.faults = self.faults.saturating_add(1);
                Err(Failed)
            }
        }
    }
}

/// A house over the files of the system, of which it tells no content.
#[derive(Drop)]
pub struct FileHouse<R: Files> {
    pub files: R,
    pub opened: Vec<OpenedRow>,
}

impl<R: Files> FileHouse<R> {
    pub fn new(alloc: Global, files: R) -> Self
        ensures { map row_of result.opened.items ≡ [] }
    {
        FileHouse {
            files,
            opened: Vec::new(alloc),
        }
    }
}

impl<R: Files> House for FileHouse<R>
where
    R::File: Send,
{
    type Source = FileSource<SystemFile<R::File>>;

    type Sink = FileSink<SystemFile<R::File>>;

    ghost opened = { λ h. map row_of h.opened.items };

    ghost tells = { λ _. false };

    ghost file = { λ _ _. None };

    fn source(&mut self, path: &str) -> Result<FileSource<SystemFile<R::File>>, HouseError> {
        let row = prepare_row(&mut self.opened, path, false).map_err(HouseError::Memory)?;
        match fs::open(&self.files, path) {
            Ok(file) => {
                let _ = self.opened.push(row);
                Ok(FileSource {
                    place: self.opened.len() as u64,
                    faults: 0,
                    reader: SystemFile { file },
                })
            }
            Err(_) => {
                refuse_row(&mut self.opened, row);
                Err(HouseError::Failed)
            }
        }
    }

    fn sink(&mut self, path: &str) -> Result<FileSink<SystemFile<R::File>>, HouseError> {
        let row = prepare_row(&mut self.opened, path, true).map_err(HouseError::Memory)?;
        match fs::create(&self.files, path) {
            Ok(file) => {
                let _ = self.opened.push(row);
                Ok(FileSink {
                    place: self.opened.len() as u64,
                    faults: 0,
                    writer: SystemFile { file },
                })
            }
            Err(_) => {
                refuse_row(&mut self.opened, row);
                Err(HouseError::Failed)
            }
        }
    }

    fn return_source(&mut self, source: FileSource<SystemFile<R::File>>) {
        mark_row(&mut self.opened, source.place, source.faults);
    }

    fn return_sink(&mut self, sink: FileSink<SystemFile<R::File>>) {
        mark_row(&mut self.opened, sink.place, sink.faults);
    }
}
