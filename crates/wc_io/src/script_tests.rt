use crate::tests::source_of;
use crate::{Failed, LineRead, Lines, MemorySource, Source};
use std::alloc::{AllocError, Global};
use std::test::Fail;

/// The results of a script's calls: each line with a bar behind it, `+` for a line that is too long, and at the end
/// `.`, `!` for too much and `?` for a failed read.
fn results<S: Source + Drop>(alloc: Global, source: S) -> Result<Vec<u8>, AllocError> {
    let mut text = Vec::new(alloc);
    let mut lines = match Lines::new(alloc, source) {
        Ok(lines) => lines,
        Err((_, error)) => return Err(error),
    };
    let mut last = LineRead::Line;
    for _ in 0..20_000u32 {
        last = lines.next_line();
        match last {
            LineRead::Line => {
                text.extend_from_slice(lines.line())?;
                text.push(b'|')?;
            }
            LineRead::TooLong => text.push(b'+')?,
            _ => break,
        }
    }
    text.push(match last {
        LineRead::End => b'.',
        LineRead::TooMuch => b'!',
        _ => b'?',
    })?;
    let _ = lines.into_source();
    Ok(text)
}

#[test]
fn lines_are_the_same_however_they_are_cut(rt: HostRuntime) -> Result<(), Fail> {
    let table = [
        ("", "."),
        ("\n", "|."),
        ("a\nb\r\nc", "a|b|c|."),
        ("\r\n\r\n", "||."),
        ("\r", "\r|."),
        ("a\r", "a\r|."),
        ("a\rb\n\r\r\n", "a\rb|\r|."),
        ("nul\0in\n\0\n", "nul\0in|\0|."),
        ("list\n\n \tquit", "list|| \tquit|."),
    ];
    for (script, want) in table {
        for most in [1, 7, 0] {
            let got = results(rt.alloc(), source_of(rt.alloc(), script, most, &[])?)?;
            assert_eq!(rt; got.as_slice(), want.as_bytes(), "{script:?} by {most}");
        }
    }
    Ok(())
}

/// So many bytes `x` and then the text.
fn long_script(
    alloc: Global,
    count: usize,
    end: &str,
    most: usize,
) -> Result<MemorySource, AllocError> {
    let mut source = source_of(alloc, "", most, &[])?;
    for _ in 0..count {
        source.left.push(b'x')?;
    }
    source.left.extend_from_slice(end.as_bytes())?;
    Ok(source)
}

#[test]
fn a_line_has_at_most_4096_bytes(rt: HostRuntime) -> Result<(), Fail> {
    let table = [
        (4096, "\ny", 4096 + 4),
        (4097, "\ny", 4),
        (4095, "\r\ny", 4095 + 4),
        (4096, "\r\ny", 4),
        (4096, "", 4096 + 2),
        (4097, "", 2),
        (4096, "\r", 2),
    ];
    for (count, end, size) in table {
        for most in [1, 7, 0] {
            let got = results(rt.alloc(), long_script(rt.alloc(), count, end, most)?)?;
            assert_eq!(rt; got.len(), size, "{count} and {end:?} by {most}");
        }
    }
    let got = results(rt.alloc(), long_script(rt.alloc(), 9000, "\ny\n", 0)?)?;
    assert_eq!(rt; got.as_slice(), b"+y|.".as_slice());
    Ok(())
}

#[test]
fn a_script_has_at_most_10000_lines(rt: HostRuntime) -> Result<(), Fail> {
    let table = [
        (10_000, "", b'.'),
        (10_001, "", b'!'),
        (10_000, "x", b'!'),
        (9_999, "x", b'.'),
    ];
    for (count, end, last) in table {
        let mut source = source_of(rt.alloc(), "", 0, &[])?;
        for _ in 0..count {
            source.left.push(b'\n')?;
        }
        source.left.extend_from_slice(end.as_bytes())?;
        let got = results(rt.alloc(), source)?;
        assert_eq!(rt; got.last(), Some(&last), "{count} lines and {end:?}");
    }
    Ok(())
}

#[test]
fn a_failed_read_ends_a_script(rt: HostRuntime) -> Result<(), Fail> {
    let got = results(rt.alloc(), source_of(rt.alloc(), "a\nbcdefg\n", 3, &[3])?)?;
    assert_eq!(rt; got.as_slice(), b"a|?".as_slice());
    let end = results(rt.alloc(), source_of(rt.alloc(), "ab", 2, &[2])?)?;
    assert_eq!(rt; end.as_slice(), b"?".as_slice());
    Ok(())
}

/// So many bytes `x`, of which the one with that number, from 1, is an LF.
#[derive(Drop)]
struct Filled {
    given: u64,
    total: u64,
    feed: u64,
}

impl Source for Filled {
    ghost use Rattle.std.specs.Prelude.{None};

    ghost left = { λ _. None };

    ghost place = { λ _. 0 };

    ghost faults = { λ _. 0 };

    fn read(&mut self, buffer: &mut [u8]) -> Result<usize, Failed> {
        let mut count = 0;
        for byte in buffer.iter_mut() {
            if self.given >= self.total {
                break;
            }
            self.given = self.given.saturating_add(1);
            *byte = if self.given == self.feed { b'\n' } else { b'x' };
            count += 1;
        }
        Ok(count)
    }
}

#[test]
fn a_script_has_at_most_50331648_bytes(rt: HostRuntime) -> Result<(), Fail> {
    let table = [
        (50_331_648, 0, "+."),
        (50_331_649, 0, "!"),
        (50_331_649, 50_331_649, "!"),
        (50_331_649, 50_331_648, "+!"),
        (50_331_648, 50_331_648, "+."),
        (u64::MAX, 5, "xxxx|!"),
    ];
    for (total, feed, want) in table {
        let source = Filled {
            given: 0,
            total,
            feed,
        };
        let got = results(rt.alloc(), source)?;
        assert_eq!(rt;
            got.as_slice(),
            want.as_bytes(),
            "{total} bytes, LF at {feed}"
        );
    }
    Ok(())
}
