ghost use Rattle.std.specs.Prelude.{◌≡◌};
ghost use Rattle.wc_model.specs.Program.Words.{word_at};

use crate::Image;
use byteorder::{ByteOrder, LittleEndian};
use wc_base::Addr;

impl Image {
    /// The word at an address that is a multiple of 4, by the first range that holds its four bytes.
    pub fn word(&self, at: Addr) -> Option<u32>
        ensures { result ≡ word_at self.now at }
    {
        if at % 4 != 0 {
            return None;
        }
        let bytes = self.bytes.items();
        for range in self.ranges.items() {
            if range.start <= at && at as u64 + 4 <= range.start as u64 + range.length as u64 {
                let place = range.offset as usize + (at - range.start) as usize;
                return Some(LittleEndian::read_u32(&bytes[place..]));
            }
        }
        None
    }
}
