ghost use Rattle.std.specs.Prelude.{◌≡◌, ◌+◌, ◌<◌, ◌≤◌, ◌&&◌, ◌==◌, IfSome, length, slice_index};
ghost use Rattle.wc_f4.specs.Bytes.{closing_length, has_at, is_of, run_length};

/// A kind of bytes that stand in a row.
#[derive(Clone, Copy)]
pub enum Kind {
    Letter,
    Decimal,
    Hexadecimal,
    Quoted,
    Line,
}

pub fn is_of(kind: Kind, byte: u8) -> bool
    ensures { result ≡ is_of kind byte }
{
    match kind {
        Kind::Letter => b'a' <= byte && byte <= b'z',
        Kind::Decimal => b'0' <= byte && byte <= b'9',
        Kind::Hexadecimal => {
            (b'0' <= byte && byte <= b'9')
                || (b'A' <= byte && byte <= b'F')
                || (b'a' <= byte && byte <= b'f')
        }
        Kind::Quoted => byte != b'"' && byte != b'\n',
        Kind::Line => byte != b'\n',
    }
}

/// How many bytes at the front are of the kind.
pub fn run_length(bytes: &[u8], kind: Kind) -> usize
    ensures value { result ≡ run_length kind bytes.now }
    ensures inside { result ≤ length bytes.now }
{
    let mut count = 0;
    while count < bytes.len() && is_of(kind, bytes[count]) {
        count += 1;
    }
    count
}

pub fn has_at(bytes: &[u8], place: usize, byte: u8) -> bool
    ensures { result ≡ has_at bytes.now place byte }
{
    place < bytes.len() && bytes[place] == byte
}

/// Whether a comment's end stands at the place.
fn closes(bytes: &[u8], place: usize) -> bool
    requires { place < length bytes.now }
    ensures { result ≡ (slice_index bytes.now place == 42 && has_at bytes.now (place + 1) 47) }
{
    bytes[place] == b'*' && has_at(bytes, place + 1, b'/')
}

/// How many bytes there are up to the end of the first `*/`.
pub fn closing_length(bytes: &[u8]) -> Option<usize>
    ensures value { result ≡ closing_length bytes.now }
    ensures inside { IfSome result (λ n. n ≤ length bytes.now) }
{
    let mut count = 0;
    while count < bytes.len() {
        if closes(bytes, count) {
            return Some(count + 2);
        }
        count += 1;
    }
    None
}
