// A page that is damaged at a place, read into lent memory of 8 slots and 8 pool bytes, which holds 7 everywhere, as the header does: the number that the host is told, and
// whether header and memory are still the same.
#![tactic(auto)]

ghost use Rattle.std.specs.Prelude.{ℕ, ◌≤◌, ◌<◌, length, slice_index_or, IfSome};

use heap::Heap;
use std::alloc::{AllocError, Global};

fn sevens() -> Heap {
    Heap {
        tag: 7,
        since_gc: 7,
        reclaim_at: 7,
        live_bytes: 7,
        epoch: 7,
        log: [7; 16],
        slots: 7,
        free: 7,
        quarantine: 7,
        retired: 7,
        sealed: 7,
    }
}

// Kept: only the program damaged compares headers; an equality derived for the library's `Heap` would stand there for a test alone.
fn is_sevens(h: Heap) -> bool {
    let numbers = h.since_gc == 7 && h.reclaim_at == 7 && h.live_bytes == 7 && h.epoch == 7;
    let counts = h.slots == 7
        && h.free == 7
        && h.quarantine == 7
        && h.retired == 7
        && h.sealed == 7;
    h.tag == 7 && numbers && h.log == [7; 16] && counts
}

// Kept: a number and a flag that both always stand, since a refusal that changes something is what is looked for.
// What a text is answered, and whether header and memory are the same afterwards.
#[derive(Clone, Copy)]
pub struct Seen {
    pub number: u64,
    pub same: bool,
}

impl Seen {
    // Is this number the answer, and all the same just if that is a refusal?
    fn is_sound(&self, number: u64) -> bool {
        self.number == number && self.same == (number != 0)
    }

    // Where the answer stands among the numbers that are counted, if all is the same just if it is a refusal.
    fn place(&self) -> Option<usize>
        ensures { IfSome result (λ k. k < 5) }
    {
        if self.same == (self.number == 0) {
            return None;
        }
        NUMBERS.iter().position(|number| *number == self.number)
    }

    pub fn name(&self) -> &'static str {
        if self.same { "same" } else { "changed" }
    }
}

fn read_page(text: &[u8]) -> Seen {
    // Kept: arrays of a fixed size, which the title names.
    let mut narrow = [7u32; 48];
    let mut wide = [7u64; 32];
    let mut pool = [7u8; 8];
    let mut marks = [7u8; 8];
    let mut work = [7u64; 8];
    let done = page_door::yexwalu_read_page(
        sevens(),
        &mut narrow,
        &mut wide,
        &mut pool,
        text,
        &mut marks,
        &mut work,
    );
    let same_memory = narrow == [7; 48] && wide == [7; 32] && pool == [7; 8];
    Seen {
        number: done.answer.number,
        same: same_memory && is_sevens(done.heap),
    }
}

// Where `part` first stands in a text: nothing stands at its start, also of an empty one.
pub fn find(s: &[u8], part: &[u8]) -> Option<usize>
    ensures { IfSome result (λ at. at ≤ length s.now) }
{
    for at in 0..=s.len() {
        if s[at..].starts_with(part) {
            return Some(at);
        }
    }
    None
}

// How many bytes a page may have for `read_damaged_limited`, with those that are put into it. A
// longer one isn't read: the empty text is, which is no page.
const LONGEST: usize = 1024;

// What is answered to a page with up to `old` bytes from `at` on replaced by `new`, where the two
// are not longer than `LONGEST`; else what is answered to the empty text.
pub fn read_damaged_limited(page: &[u8], at: usize, old: usize, new: &[u8]) -> Seen
    requires { at ≤ length page.now }
{
    if LONGEST < page.len() || LONGEST - page.len() < new.len() {
        return read_page(&[]);
    }
    let rest = page.get(at.saturating_add(old)..).unwrap_or(&[]);
    let next = at + new.len();
    let end = next + rest.len();
    let mut text = [0u8; LONGEST];
    text[..at].copy_from_slice(&page[..at]);
    text[at..next].copy_from_slice(new);
    text[next..end].copy_from_slice(rest);
    read_page(&text[..end])
}

// The numbers that are counted, in the order in which they are printed.
pub const NUMBERS: [u64; 5] = [17, 1, 6, 5, 0];

// How often each of them is the answer where up to `old` bytes are replaced by `new`, of all places in a page; where it is, all is the same just if that is a refusal.
pub fn count_everywhere(page: &[u8], old: usize, new: &[u8]) -> [usize; 5]
    ensures { (k : ℕ) → slice_index_or result k 0 ≤ length page.now }
{
    let mut counts = [0; 5];
    for at in 0..page.len() {
        let seen = read_damaged_limited(page, at, old, new);
        if let Some(k) = seen.place() {
            counts[k] += 1;
        }
    }
    counts
}

// What is answered to a page with up to `old` bytes from `at` on replaced by `new`, of any length.
pub fn read_damaged(
    alloc: Global,
    page: &[u8],
    at: usize,
    old: usize,
    new: &[u8],
) -> Result<Seen, AllocError>
    requires { at ≤ length page.now }
{
    let mut text = Vec::new(alloc);
    text.extend_from_slice(&page[..at])?;
    text.extend_from_slice(new)?;
    text.extend_from_slice(page.get(at.saturating_add(old)..).unwrap_or(&[]))?;
    Ok(read_page(&text))
}

// What is answered where up to `old` bytes are replaced by `new`, for each place in a page.
pub fn read_everywhere(
    alloc: Global,
    page: &[u8],
    old: usize,
    new: &[u8],
) -> Result<Vec<Seen>, AllocError> {
    let mut all = Vec::new(alloc);
    for at in 0..page.len() {
        all.push(read_damaged(alloc, page, at, old, new)?)?;
    }
    Ok(all)
}

// How many of them are this number.
pub fn count(all: &[Seen], number: u64) -> usize
    ensures { result ≤ length all.now }
{
    all.iter().filter(|s| s.is_sound(number)).count()
}

#[cfg(test)]
mod tests {
    use super::*;
    use std::io;

    // A page of one object with 512 bytes of data, without them.
    const LARGE: &[u8] = b"\
tag,since_gc,reclaim_at,live_bytes,slots,free,quarantine,sealed,retired\n\
1,0,4096,512,1,0,0,0,0\n\
generation,kind,type,start,writes64,data\n\
1,2,0,0,0,\n\
free\nquarantine\nsealed\nretired\n";

    const EMPTY: &[u8] = b"\
tag,since_gc,reclaim_at,live_bytes,slots,free,quarantine,sealed,retired\n\
1,0,4096,0,0,0,0,0,0\n\
generation,kind,type,start,writes64,data\n\
free\nquarantine\nsealed\nretired\n";

    #[test]
    fn reads_pages_of_any_length(rt: HostRuntime) -> io::Result<()> {
        let data = [b'0'; 1024];
        let at = find(LARGE, b"\nfree").unwrap_or(0);
        let seen = read_damaged(rt.alloc(), LARGE, at, 0, &data)?;
        assert!(rt; (seen.number, seen.same) == (6, true));
        let seen = read_damaged_limited(LARGE, at, 0, &data);
        assert!(rt; (seen.number, seen.same) == (17, true));
        Ok(())
    }

    // Read are tag 1, since_gc 1, reclaim_at 4196 and live_bytes 1. No reclaim_at are 1096 and 4016
    // (too small) and 4091 (odd). At the other 158 of 165 places the text is no page.
    #[test]
    fn counts_each_answer(rt: HostRuntime) -> io::Result<()> {
        let all = read_everywhere(rt.alloc(), EMPTY, 1, b"1")?;
        for (number, times) in [(17, 158), (1, 3), (6, 0), (5, 0), (0, 4)] {
            assert_eq!(rt; count(&all, number), times, "{number}");
        }
        Ok(())
    }
}
