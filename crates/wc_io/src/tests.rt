use crate::{
    Failed, FileHouse, House, HouseError, MemoryFile, MemoryHouse, MemorySink, MemorySource,
    OpenedRow, Piece, ReadWhole, Sink, Source, read_file, read_whole, write_pieces, write_whole,
};
use std::alloc::{AllocError, Global};
use std::test::Fail;
use wc_base::{Fault, FieldWord, FileWord, UnbuiltWord};

fn bytes(alloc: Global, text: &str) -> Result<Vec<u8>, AllocError> {
    Vec::from_slice(alloc, text.as_bytes())
}

pub fn source_of(
    alloc: Global,
    text: &str,
    most: usize,
    failing: &[u64],
) -> Result<MemorySource, AllocError> {
    Ok(MemorySource {
        place: 0,
        left: bytes(alloc, text)?,
        most,
        calls: 0,
        failing: Vec::from_slice(alloc, failing)?,
        faults: 0,
    })
}

fn sink_of(alloc: Global, failing: &[u64]) -> Result<MemorySink, AllocError> {
    let mut sink = MemorySink::new(alloc);
    sink.failing.extend_from_slice(failing)?;
    Ok(sink)
}

fn house_of(alloc: Global, failing: &[u64]) -> Result<MemoryHouse, AllocError> {
    let mut files = Vec::new(alloc);
    files.push(MemoryFile {
        path: String::from_str(alloc, "in")?,
        bytes: bytes(alloc, "seven")?,
        most: 2,
        failing: Vec::from_slice(alloc, &[9])?,
    })?;
    Ok(MemoryHouse {
        files,
        calls: 0,
        failing: Vec::from_slice(alloc, failing)?,
        opened: Vec::new(alloc),
    })
}

/// A source that never ends.
#[derive(Drop)]
struct Endless;

impl Source for Endless {
    ghost use Rattle.std.specs.Prelude.{None};

    ghost left = { λ _. None };

    ghost place = { λ _. 0 };

    ghost faults = { λ _. 0 };

    fn read(&mut self, buffer: &mut [u8]) -> Result<usize, Failed> {
        Ok(buffer.len())
    }
}

#[test]
fn a_source_gives_at_most_most_bytes_and_fails_by_number(rt: HostRuntime) -> Result<(), Fail> {
    let mut source = source_of(rt.alloc(), "abcde", 2, &[2])?;
    let mut buffer = [0u8; 4];
    for (want, left) in [
        (Ok(2), 3),
        (Err(Failed), 3),
        (Ok(2), 1),
        (Ok(1), 0),
        (Ok(0), 0),
    ] {
        assert_eq!(rt; source.read(&mut buffer), want, "with {left} left");
        assert_eq!(rt; source.left.len(), left);
    }
    assert_eq!(rt; source.faults, 1);
    Ok(())
}

#[test]
fn a_whole_read_has_at_most_most_bytes(rt: HostRuntime) -> Result<(), Fail> {
    for (most, cut) in [(5, 0), (5, 1), (9, 2)] {
        let mut source = source_of(rt.alloc(), "abcde", cut, &[])?;
        let all = read_whole(rt.alloc(), &mut source, most)?;
        assert_eq!(rt; all.as_slice(), b"abcde".as_slice(), "cut at {cut}");
    }
    let mut long = source_of(rt.alloc(), "abcde", 0, &[])?;
    assert_eq!(rt;
        read_whole(rt.alloc(), &mut long, 4).err(),
        Some(ReadWhole::Long)
    );
    let mut failing = source_of(rt.alloc(), "abcde", 2, &[2])?;
    assert_eq!(rt;
        read_whole(rt.alloc(), &mut failing, 5).err(),
        Some(ReadWhole::Failed)
    );
    assert_eq!(rt;
        read_whole(rt.alloc(), &mut Endless, 100_000).err(),
        Some(ReadWhole::Long)
    );
    Ok(())
}

#[test]
fn a_failed_write_leaves_a_prefix(rt: HostRuntime) -> Result<(), Fail> {
    let mut sink = sink_of(rt.alloc(), &[2])?;
    assert_eq!(rt; write_whole(&mut sink, b"one"), Ok(()));
    assert_eq!(rt; write_whole(&mut sink, b"two"), Err(Failed));
    assert_eq!(rt; write_whole(&mut sink, b"three"), Ok(()));
    assert_eq!(rt; sink.held.as_slice(), b"onethree".as_slice());
    assert_eq!(rt; sink.faults, 1);
    Ok(())
}

#[test]
fn faults_have_their_texts(rt: HostRuntime) -> Result<(), Fail> {
    let table = [
        (Fault::Truncated(200), "1 Truncated offset 200"),
        (Fault::Thumb(0x8001), "5 Thumb 0x00008001"),
        (Fault::LongFile(FileWord::Facts), "6 LongFile facts"),
        (Fault::BadJson, "10 BadJson"),
        (
            Fault::BadField(FieldWord::PerRegister),
            "11 BadField per_register",
        ),
        (Fault::BadFact(1), "12 BadFact line 1"),
        (Fault::Unbounded(0xfedcba98), "31 Unbounded 0xfedcba98"),
        (Fault::TooMuch, "53 TooMuch"),
        (Fault::Unbuilt(UnbuiltWord::Code), "90 Unbuilt code"),
    ];
    for (fault, want) in table {
        let mut sink = sink_of(rt.alloc(), &[])?;
        assert_eq!(rt; write_pieces(&mut sink, &[Piece::Fault(fault)]), Ok(()));
        assert_eq!(rt; sink.held.as_slice(), want.as_bytes());
    }
    Ok(())
}

#[test]
fn a_line_is_written_in_pieces(rt: HostRuntime) -> Result<(), Fail> {
    let mut sink = sink_of(rt.alloc(), &[])?;
    let pieces = [
        Piece::Bytes(b"bound "),
        Piece::Decimal(158_456_325_083_868_907_421_101_457_409),
        Piece::Bytes(b" at "),
        Piece::Address(0x8004),
        Piece::Bytes(b"\n"),
    ];
    assert_eq!(rt; write_pieces(&mut sink, &pieces), Ok(()));
    let want = "bound 158456325083868907421101457409 at 0x00008004\n";
    assert_eq!(rt; sink.held.as_slice(), want.as_bytes());
    Ok(())
}

#[test]
fn a_house_lists_what_it_opened(rt: HostRuntime) -> Result<(), Fail> {
    let mut house = house_of(rt.alloc(), &[3])?;
    assert_eq!(rt;
        read_file(rt.alloc(), &mut house, "none", 9).err(),
        Some(ReadWhole::Failed)
    );
    let read = read_file(rt.alloc(), &mut house, "in", 9)?;
    assert_eq!(rt; read.as_slice(), b"seven".as_slice());
    assert_eq!(rt;
        read_file(rt.alloc(), &mut house, "in", 9).err(),
        Some(ReadWhole::Failed)
    );
    assert_eq!(rt;
        read_file(rt.alloc(), &mut house, "in", 4).err(),
        Some(ReadWhole::Long)
    );
    let mut failed = [false; 4];
    assert_eq!(rt; house.opened.len(), 4);
    for (flag, row) in failed.iter_mut().zip(&house.opened) {
        *flag = row.failed;
    }
    assert_eq!(rt; failed, [true, false, true, false]);
    Ok(())
}

fn holds(house: &MemoryHouse, path: &str, text: &str) -> bool {
    for file in &house.files {
        if file.path.as_str() == path {
            return file.bytes.as_slice() == text.as_bytes();
        }
    }
    false
}

#[test]
fn a_returned_sink_is_the_file(rt: HostRuntime) -> Result<(), Fail> {
    let mut house = house_of(rt.alloc(), &[])?;
    write_file(&mut house, "new", "news")?;
    write_file(&mut house, "in", "eleven")?;
    assert!(rt; holds(&house, "new", "news"));
    assert!(rt; holds(&house, "in", "eleven"));
    let _opened = house.sink("in")?;
    assert!(rt; holds(&house, "in", ""));
    Ok(())
}

#[test]
fn files_are_written_and_read_back(rt: HostRuntime) -> Result<(), Fail> {
    let mut house = FileHouse::new(rt.alloc(), rt);
    write_file(&mut house, "kept", "a long text over std\n")?;
    let long = read_file(rt.alloc(), &mut house, "kept", 100)?;
    assert_eq!(rt; long.as_slice(), b"a long text over std\n".as_slice());
    write_file(&mut house, "kept", "a short one\n")?;
    let short = read_file(rt.alloc(), &mut house, "kept", 100)?;
    assert_eq!(rt; short.as_slice(), b"a short one\n".as_slice());
    assert_eq!(rt;
        read_file(rt.alloc(), &mut house, "none", 100).err(),
        Some(ReadWhole::Failed)
    );
    assert_eq!(rt; house.opened.len(), 5);
    Ok(())
}

fn write_file<H: House>(house: &mut H, path: &str, text: &str) -> Result<(), HouseError> {
    let mut sink = house.sink(path)?;
    let written = write_whole(&mut sink, text.as_bytes());
    house.return_sink(sink);
    written.map_err(|_| HouseError::Failed)
}
