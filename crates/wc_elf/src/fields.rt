ghost use Rattle.std.specs.Prelude.{◌≡◌, ◌+◌, ◌≤◌, length};
ghost use Rattle.wc_model.specs.Program.Elf.{half as half_of, word as word_of};

use byteorder::{ByteOrder, LittleEndian};

/// The 16-bit field at the offset.
pub fn half(file: &[u8], at: usize) -> u16
    requires { at + 2 ≤ length file.now }
    ensures { result ≡ half_of file.now at }
{
    LittleEndian::read_u16(&file[at..])
}

/// The 32-bit field at the offset.
pub fn word(file: &[u8], at: usize) -> u32
    requires { at + 4 ≤ length file.now }
    ensures { result ≡ word_of file.now at }
{
    LittleEndian::read_u32(&file[at..])
}
