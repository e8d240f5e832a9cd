ghost use Rattle.std.specs.Prelude.{◌≡◌, ◌≤◌, IfOk, drop, length, position};
ghost use Rattle.wc_elf.specs.Strings.{AreEnds, is_nul, nul_from};

use std::alloc::{AllocError, Global};

const BLOCK: usize = 64;

/// The place of the first NUL from `start` on, where the first from `stop` on stands at `next`.
fn first_nul(strings: &[u8], start: usize, stop: usize, next: usize) -> usize
    requires order { start ≤ stop }
    requires inside { stop ≤ length strings.now }
    requires next { next ≡ nul_from strings.now stop }
    ensures { result ≡ nul_from strings.now start }
{
    for place in start..stop {
        if strings[place] == 0 {
            return place;
        }
    }
    next
}

/// The places of the first NULs from each 64th byte on, so that no text is read to its end twice.
pub fn block_ends(alloc: Global, strings: &[u8]) -> Result<Vec<usize>, AllocError>
    ensures { IfOk result (λ ends. AreEnds strings.now ends.items) }
{
    let count = strings.len() / BLOCK + 1;
    let mut ends = vec![in alloc; 0usize; count]?;
    let mut next = strings.len();
    let mut block = count;
    while block > 0 {
        block -= 1;
        let start = BLOCK * block;
        next = first_nul(strings, start, (start + BLOCK).min(strings.len()), next);
        ends[block] = next;
    }
    Ok(ends)
}

/// How many bytes stand from `start` on before the first NUL; nothing where there is none.
pub fn text_length(strings: &[u8], ends: &[usize], start: usize) -> Option<usize>
    requires { AreEnds strings.now ends.now }
    ensures { result ≡ position is_nul (drop start strings.now) }
{
    if start >= strings.len() {
        return None;
    }
    let block = start / BLOCK + 1;
    let stop = (BLOCK * block).min(strings.len());
    let next = if stop < strings.len() {
        ends[block]
    } else {
        strings.len()
    };
    let end = first_nul(strings, start, stop, next);
    if end < strings.len() {
        Some(end - start)
    } else {
        None
    }
}
