ghost use Rattle.std.specs.Prelude.{◌≡◌, [], map, IfOk, OnOk, OnErr, MatchOption, None, Some};
ghost use Rattle.std.specs.List.{find, position_from};
ghost use Rattle.wc_io.specs.Memory.{emptied, failing_at, filled, is_at, seen};

use std::alloc::{AllocError, Global};

/// A file of a `MemoryHouse`. Its sources have its `most` and `failing`, its sinks its `failing`.
#[derive(Debug, Drop)]
pub struct MemoryFile {
    pub path: String,
    pub bytes: Vec<u8>,
    pub most: usize,
    pub failing: Vec<u64>,
}

/// The number of the first file of that path.
fn index_of(files: &[MemoryFile], path: &str) -> Option<usize>
    ensures { result ≡ position_from (λ f. is_at path.now (seen f)) 0 files.now }
{
    files.iter().position(|file| file.path.as_str() == path)
}

/// The first file of that path.
pub fn find_file<'a>(files: &'a [MemoryFile], path: &str) -> Option<&'a MemoryFile>
    ensures { MatchOption result (find (is_at path.now) (map seen files.now) ≡ None)
        (λ f. find (is_at path.now) (map seen files.now) ≡ Some (seen f.now)) }
{
    for file in files {
        if file.path.as_str() == path {
            return Some(file);
        }
    }
    None
}

/// Empties the file of a path, or makes it, and gives the numbers of its failing calls.
pub fn empty_file(
    alloc: Global,
    files: &mut Vec<MemoryFile>,
    path: &str,
) -> Result<Vec<u64>, AllocError>
    ensures files { OnOk result (map seen files.new.items ≡ emptied path.now (map seen files.old.items)) }
    ensures failing { IfOk result (λ v. v.items ≡ failing_at (map seen files.old.items) path.now) }
    ensures kept { OnErr result (files.new.items ≡ files.old.items) }
{
    match index_of(files, path) {
        Some(i) => {
            let failing = files[i].failing.to_vec(alloc)?;
            files[i].bytes.clear();
            Ok(failing)
        }
        None => {
            let file = MemoryFile {
                path: String::from_str(alloc, path)?,
                bytes: Vec::new(alloc),
                most: 0,
                failing: Vec::new(alloc),
            };
            files.push(file)?;
            Ok(Vec::new(alloc))
        }
    }
}

/// Gives the file of a path these bytes, where there is one.
pub fn fill_file(files: &mut Vec<MemoryFile>, path: &str, bytes: Vec<u8>)
    ensures { map seen files.new.items ≡ filled path.now bytes.items (map seen files.old.items) }
{
    if let Some(i) = index_of(files, path) {
        files[i].bytes = bytes;
    }
}
