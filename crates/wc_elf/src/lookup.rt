ghost use Rattle.std.specs.Prelude.{◌≡◌, ◌+◌, ◌≤◌, length};
ghost use Rattle.wc_model.specs.Program.Words.{find_of, is_called as is_called_of};

use wc_base::{Addr, Fault};
use wc_model::{Image, Name};

/// Whether the symbol has this name. Names of other lengths aren't read.
fn is_called(bytes: &[u8], symbol: &Name, name: &[u8]) -> bool
    requires { symbol.now.offset + symbol.now.length ≤ length bytes.now }
    ensures { result ≡ is_called_of bytes.now name.now symbol.now }
{
    let start = symbol.offset as usize;
    let end = start + symbol.length as usize;
    end - start == name.len() && &bytes[start..end] == name
}

/// The address that the name means: the value of the first symbol that is called so.
///
/// Gives `NoSymbol` where no symbol is, and `Thumb` with its value where the first one is a function with
/// bit 0 set.
pub fn find(image: &Image, name: &[u8]) -> Result<Addr, Fault>
    ensures { result ≡ find_of image.now name.now }
{
    let bytes = image.bytes.items();
    for symbol in image.names.items() {
        if is_called(bytes, symbol, name) {
            if symbol.function && symbol.value % 2 == 1 {
                return Err(Fault::Thumb(symbol.value));
            }
            return Ok(symbol.value);
        }
    }
    Err(Fault::NoSymbol)
}
