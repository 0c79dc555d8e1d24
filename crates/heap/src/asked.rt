// What a heap is asked.
ghost use Rattle.std.specs.Prelude.{◌≡◌, ◌+◌, ◌-◌, ◌<◌, length, eqb, nat_le, not, true};
ghost use Rattle.std.specs.List.{filter};
ghost use Rattle.refusal.specs.Told.{told, answered};
ghost use Rattle.handle.specs.Inner.Told.{told as found};
ghost use Rattle.heap.specs.State.{slot_at, live as alive, data_size};
ghost use Rattle.heap.specs.Calls.{gc_due, reclaim_due, has_quarantine, is_plain};
ghost use Rattle.heap.specs.Calls.{live_count, Place, place_at, Kind, kind_at, Stamp, stamp_at, resolve as resolved};
ghost use Rattle.heap.specs.Inner.Seen.{state, seen_at};

use crate::view::View;
use refusal::{Refusal, Reply};

// How many kinds are not 0.
// Kept: a loop that adds takes many slots at a time; `count` behind a `filter` takes them one by one, and 2.5 times as long.
fn count_in_use(kinds: &[u32]) -> usize
    ensures { result ≡ length (filter (λ kind. not (eqb kind 0)) kinds.now) }
{
    let mut count = 0;
    for kind in kinds {
        if *kind != 0 {
            count += 1;
        }
    }
    count
}

impl<'a> View<'a> {
    // The slot that a handle leads to.
    pub fn resolve(self, x: u64) -> Result<u32, Refusal>
        ensures { found result ≡ resolved (state self.entry) x }
    {
        let View {
            heap,
            narrow,
            wide: _,
            pool: _,
        } = self;
        handle::resolve(heap.tag, heap.slots, narrow.len() / 6, narrow, x)
    }

    // The number of live slots.
    pub fn live(self) -> u64
        ensures { result ≡ live_count (state self.entry).slots }
    {
        let View {
            heap,
            narrow,
            wide: _,
            pool: _,
        } = self;
        let s = narrow.len() / 6;
        let end = s + heap.slots;
        let kinds = &narrow[s..end];
        count_in_use(kinds) as u64
    }

    // Where the visible data of slot `i` lies, from where in the pool on and how many bytes: none of it where the start of a live slot is beyond
    // its data.
    pub fn visible(self, i: usize) -> Result<Option<(usize, usize)>, Refusal>
        ensures { result ≡ seen_at (state self.entry) i }
    {
        let View {
            heap,
            narrow,
            wide,
            pool: _,
        } = self;
        if heap.slots <= i {
            return Err(Refusal::NothingThere);
        }
        let s = narrow.len() / 6;
        if narrow[s + i] == 0 {
            return Err(Refusal::NothingThere);
        }
        let from = crate::start_of(wide, s, i);
        let size = wide[s + i] as usize - from;
        let first = wide[i] as usize;
        if size < first {
            return Ok(None);
        }
        Ok(Some((from + first, size - first)))
    }

    // Where the visible data of slot `i` lies: from where in the pool on, and how many bytes.
    pub fn data(self, i: usize) -> Reply
        ensures { told result ≡ answered (λ (p : Place). p.from) (λ (p : Place). p.size) (place_at (state self.entry) i) }
    {
        match self.visible(i)? {
            None => Err(Refusal::NothingThere),
            Some((from, size)) => Ok((from as u64, size as u64)),
        }
    }

    // The kind and the type of slot `i`.
    pub fn kind(self, i: usize) -> Reply
        ensures { told result ≡ answered (λ (k : Kind). k.kind) (λ (k : Kind). k.type) (kind_at (state self.entry) i) }
    {
        let View {
            heap,
            narrow,
            wide: _,
            pool: _,
        } = self;
        if heap.slots <= i {
            return Err(Refusal::NothingThere);
        }
        let s = narrow.len() / 6;
        let k = narrow[s + i];
        if k == 0 {
            return Err(Refusal::NothingThere);
        }
        Ok((k as u64, narrow[2 * s + i] as u64))
    }

    // The generation and the write count of slot `i`.
    pub fn stamp(self, i: usize) -> Reply
        ensures { told result ≡ answered (λ (s : Stamp). s.generation) (λ (s : Stamp). s.writes) (stamp_at (state self.entry) i) }
    {
        let View {
            heap,
            narrow,
            wide,
            pool: _,
        } = self;
        if heap.slots <= i {
            return Err(Refusal::NothingThere);
        }
        let s = narrow.len() / 6;
        if narrow[s + i] == 0 {
            return Err(Refusal::NothingThere);
        }
        Ok((narrow[i] as u64, wide[2 * s + i]))
    }

    // How many bytes of the pool no data takes.
    pub fn room(self) -> usize
        ensures { result ≡ length self.entry.pool.now - data_size (state self.entry).slots }
    {
        let View {
            heap,
            narrow,
            wide,
            pool,
        } = self;
        let s = narrow.len() / 6;
        pool.len() - crate::start_of(wide, s, heap.slots)
    }

    // Do `m` bytes fit in place of the data of slot `i`?
    pub fn fits(self, i: usize, m: usize) -> bool
        requires { i < self.heap.slots }
        ensures { result ≡ nat_le (data_size (state self.entry).slots - length (slot_at (state self.entry) i).bytes + m) (length self.entry.pool.now) }
    {
        let View {
            heap,
            narrow,
            wide,
            pool,
        } = self;
        let s = narrow.len() / 6;
        let from = crate::start_of(wide, s, i);
        let used = crate::start_of(wide, s, heap.slots);
        let size = wide[s + i] as usize - from;
        m <= pool.len() - (used - size)
    }

    // The whole data of the live slot `i`.
    pub fn bytes(self, i: u32) -> &'a [u8]
        requires { alive (slot_at (state self) i) ≡ true }
        ensures { result.now ≡ (slot_at (state self.entry) i).bytes }
    {
        let View {
            heap: _,
            narrow,
            wide,
            pool,
        } = self;
        let s = narrow.len() / 6;
        let j = i as usize;
        let from = crate::start_of(wide, s, j);
        let to = wide[s + j] as usize;
        &pool[from..to]
    }

    // From which byte on the data of the live slot `i` is visible.
    pub fn start(self, i: u32) -> u64
        requires { alive (slot_at (state self) i) ≡ true }
        ensures { result ≡ (slot_at (state self.entry) i).start }
    {
        let View {
            heap: _,
            narrow: _,
            wide,
            pool: _,
        } = self;
        wide[i as usize]
    }
    // Is a collection due: more since the last one than the threshold, and than what outlived it?
    pub fn gc_due(self, threshold: u64) -> bool
        ensures { result ≡ gc_due (state self.entry) threshold }
    {
        self.heap.gc_due(threshold)
    }

    // Are there so many slots in quarantine that they should be recycled?
    pub fn reclaim_due(self) -> bool
        ensures { result ≡ reclaim_due (state self.entry) }
    {
        self.heap.reclaim_due()
    }

    // Is a slot in quarantine?
    pub fn has_quarantine(self) -> bool
        ensures { result ≡ has_quarantine (state self.entry) }
    {
        self.heap.has_quarantine()
    }

    // Is it the heap of this tag, with nothing sealed?
    pub fn is_plain(self, tag: u8) -> bool
        ensures { result ≡ is_plain (state self.entry) tag }
    {
        self.heap.is_plain(tag)
    }

    // The number of slots, live and dead.
    pub fn slots(self) -> u64
        ensures { result ≡ length (state self.entry).slots }
    {
        self.heap.slot_count()
    }
}
