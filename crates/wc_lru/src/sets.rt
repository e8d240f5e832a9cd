ghost use Rattle.std.specs.Prelude.{◌≡◌, ◌≤◌, []};
ghost use Rattle.wc_model.specs.Cache.Lru.{has_line, line_fetched};
ghost use Rattle.wc_lru.specs.Inner.Sets.{lines_of};

// One set: the first `count` of `lines`, the youngest first.
#[derive(Clone, Copy, Debug)]
pub struct Set {
    pub lines: [u32; 8],
    pub count: u8,
}

impl Set {
    pub fn empty() -> Set
        ensures lines { lines_of result ≡ [] }
        ensures count { result.count ≡ 0 }
    {
        Set {
            lines: [0; 8],
            count: 0,
        }
    }

    // Puts a line to the front, and tells whether it was there. Each line on the way takes the place of the one before.
    pub fn fetch(&mut self, ways: u8, line: u32) -> bool
        requires ways { ways ≤ 8 }
        requires count { self.old.count ≤ ways }
        ensures hit { result ≡ has_line (lines_of self.old) line }
        ensures lines { lines_of self.new ≡ line_fetched ways line (lines_of self.old) }
        ensures count { self.new.count ≤ ways }
    {
        let mut coming = line;
        for place in 0..self.count {
            let here = self.lines[place as usize];
            self.lines[place as usize] = coming;
            if here == line {
                return true;
            }
            coming = here;
        }
        if self.count < ways {
            self.lines[self.count as usize] = coming;
            self.count += 1;
        }
        false
    }
}
