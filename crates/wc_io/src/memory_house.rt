ghost use Rattle.std.specs.Prelude.{◌≡◌, map, length, true, IfOk, OnOk, Some, IfSome};
ghost use Rattle.wc_io.specs.Causes.{counted};
ghost use Rattle.std.specs.Prelude.{[], false};
ghost use Rattle.wc_io.specs.Memory.{file_at, seen};
ghost use Rattle.wc_io.specs.MemoryHouses.{IsSourceOf};
ghost use Rattle.wc_io.specs.Rows.{row_of, AddsRow, IsRowOf, MarksRow, path_of};
ghost use Rattle.wc_io.specs.Telling.{IsThere, Gives, IsEmptied, IsFilled, KeepsOthers};

use crate::memory_files::{empty_file, fill_file, find_file};
use crate::opened::{mark_row, prepare_row, refuse_row};
use crate::{House, HouseError, MemoryFile, MemorySink, MemorySource, OpenedRow};
use std::alloc::AllocError;

/// Files in memory. The calls of `source` and `sink` whose numbers, from 1, stand in `failing` fail.
#[derive(Debug, Drop)]
pub struct MemoryHouse {
    pub files: Vec<MemoryFile>,
    pub calls: u64,
    pub failing: Vec<u64>,
    pub opened: Vec<OpenedRow>,
}

/// A source of the file, at a place.
fn source_of(file: &MemoryFile, place: u64) -> Result<MemorySource, AllocError>
    ensures source { IfOk result (IsSourceOf (seen file.now)) }
    ensures place { IfOk result (λ s. s.place ≡ place) }
    ensures faults { IfOk result (λ s. s.faults ≡ 0) }
{
    Ok(MemorySource {
        place,
        left: Vec::from_slice(*file.bytes.allocator(), &file.bytes)?,
        most: file.most,
        calls: 0,
        failing: file.failing.clone()?,
        faults: 0,
    })
}

impl House for MemoryHouse {
    ghost use Rattle.wc_io.specs.MemoryHouses.{files_of, filled_by, rows_of, OpensSource, OpensSink};

    type Source = MemorySource;

    type Sink = MemorySink;

    ghost opened = { λ h. map row_of h.opened.items };

    ghost tells = { λ _. true };

    ghost file = { λ h path. file_at (map seen h.files.items) path };

    fn source(&mut self, path: &str) -> Result<MemorySource, HouseError>
        ensures row { AddsRow path.now false (rows_of self.old) (rows_of self.new) result }
        ensures place { IfOk result (λ s. s.place ≡ length (rows_of self.new)) }
        ensures fresh { IfOk result (λ s. s.faults ≡ 0) }
        ensures there { OnOk result (IsThere true (file_at (files_of self.old) path.now)) }
        ensures bytes { IfOk result (λ s. Gives (file_at (files_of self.old) path.now) (Some s.left.items)) }
        ensures opens { OpensSource path.now self.old self.new result }
        ensures calls { self.new.calls ≡ counted self.old.calls }
        ensures kept { self.new.files ≡ self.old.files }
        ensures failing { self.new.failing ≡ self.old.failing }
    {
        self.calls = self.calls.saturating_add(1);
        let row = prepare_row(&mut self.opened, path, false).map_err(HouseError::Memory)?;
        if self.failing.contains(&self.calls) {
            refuse_row(&mut self.opened, row);
            return Err(HouseError::Failed);
        }
        let Some(file) = find_file(&self.files, path) else {
            refuse_row(&mut self.opened, row);
            return Err(HouseError::Failed);
        };
        let place = self.opened.len() as u64 + 1;
        let source = source_of(file, place).map_err(HouseError::Memory)?;
        let _ = self.opened.push(row);
        Ok(source)
    }

    fn sink(&mut self, path: &str) -> Result<MemorySink, HouseError>
        ensures row { AddsRow path.now true (rows_of self.old) (rows_of self.new) result }
        ensures place { IfOk result (λ s. s.place ≡ length (rows_of self.new)) }
        ensures fresh { IfOk result (λ s. s.faults ≡ 0) }
        ensures opens { OpensSink path.now self.old self.new result }
        ensures calls { self.new.calls ≡ counted self.old.calls }
        ensures failing { self.new.failing ≡ self.old.failing }
        ensures emptied { OnOk result (file_at (files_of self.new) path.now ≡ Some []) }
        ensures others { KeepsOthers path.now (file_at (files_of self.old)) (file_at (files_of self.new)) }
    {
        self.calls = self.calls.saturating_add(1);
        let row = prepare_row(&mut self.opened, path, true).map_err(HouseError::Memory)?;
        if self.failing.contains(&self.calls) {
            refuse_row(&mut self.opened, row);
            return Err(HouseError::Failed);
        }
        let alloc = *self.opened.allocator();
        let sink_path = String::from_str(alloc, path).map_err(HouseError::Memory)?;
        let failing = match empty_file(alloc, &mut self.files, path) {
            Ok(failing) => failing,
            Err(error) => return Err(HouseError::Memory(error)),
        };
        let _ = self.opened.push(row);
        Ok(MemorySink {
            place: self.opened.len() as u64,
            path: sink_path,
            held: Vec::new(alloc),
            calls: 0,
            failing,
            faults: 0,
        })
    }

    fn return_source(&mut self, source: MemorySource)
        requires { IsRowOf source.place false (rows_of self.old) }
        ensures rows { MarksRow source.place source.faults (rows_of self.old) (rows_of self.new) }
        ensures kept { self.new ≡ record self.old { opened = self.new.opened } }
    {
        mark_row(&mut self.opened, source.place, source.faults);
    }

    fn return_sink(&mut self, sink: MemorySink)
        requires { IsRowOf sink.place true (rows_of self.old) }
        ensures rows { MarksRow sink.place sink.faults (rows_of self.old) (rows_of self.new) }
        ensures filled { files_of self.new ≡ filled_by self.old sink }
        ensures file { IsFilled (file_at (files_of self.old) (path_of sink.place (rows_of self.old)))
            (Some sink.held.items) (file_at (files_of self.new) (path_of sink.place (rows_of self.old))) }
        ensures others { KeepsOthers (path_of sink.place (rows_of self.old))
            (file_at (files_of self.old)) (file_at (files_of self.new)) }
        ensures kept { self.new ≡ record self.old { files = self.new.files; opened = self.new.opened } }
    {
        let row = &self.opened[(sink.place - 1) as usize];
        fill_file(&mut self.files, row.path.as_str(), sink.held);
        mark_row(&mut self.opened, sink.place, sink.faults);
    }
}
