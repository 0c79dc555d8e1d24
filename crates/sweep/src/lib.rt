// The sweep of a collection, over lent memory: what is not marked is released, the pool is packed again in one pass, the survivors are counted and the
// quarantine is recycled. Linear in the slots and the pool, `recycle` apart, which looks each quarantined slot up among the pins by halves.
#![tactic(auto)]

ghost use Rattle.std.specs.Prelude.{◌≡◌, [], ◌≤◌, ◌+◌, ◌/◌, drop, length};
ghost use Rattle.word.specs.Put.{put};
ghost use Rattle.heap.specs.Lent.{lent, cut, view, slot_count};
ghost use Rattle.heap.specs.Done.{Leaves};
ghost use Rattle.heap.specs.Inner.Loans.{lies, state, Becomes};
ghost use Rattle.collection.specs.Swept.{all_dropped, drop_unmarked, swept};
ghost use Rattle.sweep.specs.Inner.Columns.{CanCompact, Compacted, CanSettle, Settled, columns_of, released_in, visited_in, CanRelease, CanVisit, CanSize, sizes_in, one_size, is_going, all_stay, CanSweep};

use heap::Heap;
use heap::view_mut::ViewMut;
use heap_calls::pinned::Pinned;

// The n bytes from `from` on come to stand from `to` on, which is not above: the lowest first, so that none is overwritten before it is read. Bytes that stay are not
// touched.
// Kept: what a sweep moves goes down alone, so that nothing asks which way, as `memory::move_within` does. Std's `copy_within` takes twice as long for the 8 or 16 bytes of a small
// object (31 ns for 15, 58 for 30), 1.4 times for 32.
fn move_down(p: &mut [u8], from: usize, to: usize, n: usize)
    requires { (to ≤ from) × (from + n ≤ length p.old) }
    ensures { p.new ≡ put p.old to (drop from p.old) n }
{
    if to == from {
        return;
    }
    for j in 0..n {
        p[to + j] = p[from + j];
    }
}

// The data from `from` to `e` comes to stand from `to` on, unless the kind `k` is 0; where the next goes.
fn settle(k: u32, from: usize, e: usize, to: usize, pool: &mut [u8]) -> usize
    requires { CanSettle from e to pool.old }
    ensures { Settled k from e to pool.old result pool.new }
{
    if k == 0 {
        return to;
    }
    move_down(pool, from, to, e - from);
    to + (e - from)
}

// The data of the first `n` slots packed again without those whose kind is 0, and zeros after it: one pass.
// Kept: n slots of a column are in use; a heap lends the whole column, and the contract tells of it.
fn compact(n: usize, kind: &[u32], end: &mut [u64], pool: &mut [u8])
    requires { CanCompact n kind.now end.old pool.old }
    ensures { Compacted n kind.now end.old pool.old end.new pool.new }
{
    let mut from = 0;
    let mut to = 0;
    for i in 0..n {
        let e = end[i] as usize;
        to = settle(kind[i], from, e, to, pool);
        end[i] = to as u64;
        from = e;
    }
    memory::fill(pool, to, from, 0);
}

// Slot `i` of `s` is dead, one generation on, and logged; it is free, or retired where it is worn out. Its data stays in the pool for now.
// Kept: the epoch and the log are changed in place, as `Heap::changed` says it of a header by value: given back by value the log of 16 slots is copied for each slot that goes.
fn release(heap: &mut Heap, narrow: &mut [u32], wide: &mut [u64], s: usize, i: usize)
    requires { CanRelease heap.old s i narrow.old wide.old }
    ensures { cut heap.new s narrow.new wide.new [] ≡ released_in (cut heap.old s narrow.old wide.old []) i }
{
    let f = heap.free;
    let r = heap.retired;
    let index = i as u32;
    let g = word::next_generation(narrow[i]);
    narrow[i] = g;
    narrow[s + i] = 0;
    narrow[2 * s + i] = 0;
    wide[i] = 0;
    wide[2 * s + i] = 0;
    let e = std::num::wrapping_add_u64(heap.epoch, 1);
    heap.epoch = e;
    heap.log[(e % 16) as usize] = index;
    if g == u32::MAX {
        narrow[5 * s + r] = index;
        heap.retired = r + 1;
        return;
    }
    narrow[3 * s + f] = index;
    heap.free = f + 1;
}

// Slot `i` of `s` goes if it is live and its mark `m` is 0.
fn visit(heap: &mut Heap, narrow: &mut [u32], wide: &mut [u64], s: usize, i: usize, m: u8)
    requires { CanVisit heap.old s i narrow.old wide.old }
    ensures { cut heap.new s narrow.new wide.new [] ≡ visited_in m (cut heap.old s narrow.old wide.old []) i }
{
    if narrow[s + i] == 0 {
        return;
    }
    if m != 0 {
        return;
    }
    release(heap, narrow, wide, s, i);
}

// Every live slot that is not marked is released, in slot order; its data stays in the pool for now.
fn release_unmarked(
    heap: Heap,
    narrow: &mut [u32],
    wide: &mut [u64],
    pool: &[u8],
    marks: &[u8],
) -> Heap
    requires { CanSweep (lent heap narrow.old wide.old pool.now) marks.now }
    ensures { cut result (length narrow.old / 6) narrow.new wide.new pool.now
        ≡ columns_of (lent heap narrow.old wide.old pool.now)
        (all_dropped (view (lent heap narrow.old wide.old pool.now)) marks.now) }
{
    let n = heap.slots;
    let s = narrow.len() / 6;
    let mut h = heap;
    for i in 0..n {
        visit(&mut h, narrow, wide, s, i, marks[i]);
    }
    h
}

// What a slot counts whose data lies from `from` to `e`.
fn size_one(k: u32, from: usize, e: usize) -> u64
    requires from_le_e { from ≤ e }
    requires e_bound { e ≤ 1073741824 }
    ensures { result ≡ one_size k from e }
{
    if k == 0 {
        return 0;
    }
    (e - from) as u64 + 32
}

// Whole length and 32 for each live slot.
fn live_size(n: usize, kind: &[u32], end: &[u64]) -> u64
    requires { CanSize n kind.now end.now }
    ensures { result ≡ sizes_in n kind.now end.now }
{
    let mut from = 0;
    let mut sum: u64 = 0;
    for i in 0..n {
        let e = end[i] as usize;
        sum += size_one(kind[i], from, e);
        from = e;
    }
    sum
}

// Does a slot of kind `k` whose mark is `m` go? It is live and not marked.
fn going(k: u32, m: u8) -> bool
    ensures { result ≡ is_going k m }
{
    0 < k && m == 0
}

// Is each of the first `n` slots dead or marked? All are looked at, so that the compiler takes many at a time.
fn all_stay(n: usize, kind: &[u32], marks: &[u8]) -> bool
    requires { (n ≤ length kind.now) × (n ≤ length marks.now) }
    ensures { result ≡ all_stay n kind.now marks.now }
{
    let mut all = true;
    for i in 0..n {
        all &= !going(kind[i], marks[i]);
    }
    all
}

// What is not marked is dropped, and what is left is counted, where something goes.
fn drop_some(
    heap: Heap,
    narrow: &mut [u32],
    wide: &mut [u64],
    pool: &mut [u8],
    marks: &[u8],
) -> Heap
    requires { CanSweep (lent heap narrow.old wide.old pool.old) marks.now }
    ensures { Leaves (lent heap narrow.old wide.old pool.old) (lent result narrow.new wide.new pool.new)
        (drop_unmarked (view (lent heap narrow.old wide.old pool.old)) marks.now) }
{
    let n = heap.slots;
    let s = narrow.len() / 6;
    let two = 2 * s;
    let h = release_unmarked(heap, narrow, wide, pool, marks);
    compact(n, &narrow[s..two], &mut wide[s..two], pool);
    let total = live_size(n, &narrow[s..two], &wide[s..two]);
    h.with_since(0).with_live(total)
}

// The sweep, up to the recycling of the quarantine: what is not marked is dropped, and what is left is counted. Where nothing goes, no entry and no byte moves.
fn drop_unmarked(
    heap: Heap,
    narrow: &mut [u32],
    wide: &mut [u64],
    pool: &mut [u8],
    marks: &[u8],
) -> Heap
    requires { CanSweep (lent heap narrow.old wide.old pool.old) marks.now }
    ensures { Leaves (lent heap narrow.old wide.old pool.old) (lent result narrow.new wide.new pool.new)
        (drop_unmarked (view (lent heap narrow.old wide.old pool.old)) marks.now) }
{
    let n = heap.slots;
    let s = narrow.len() / 6;
    let two = 2 * s;
    if all_stay(n, &narrow[s..two], marks) {
        let total = live_size(n, &narrow[s..two], &wide[s..two]);
        return heap.with_since(0).with_live(total);
    }
    drop_some(heap, narrow, wide, pool, marks)
}

// The sweep of a collection: what is not marked is dropped, what is left is counted, and the quarantine is recycled. Where the marks are the pins, a quarantined slot
// stays if it is marked.
pub fn sweep<P: Pinned>(lent: &mut ViewMut, marks: &[u8], pins: P)
    requires { slot_count (lies lent.old) ≤ length marks.now }
    ensures { Becomes lent.old lent.new (swept (state lent.old) marks.now (P.slots pins)) }
{
    let narrow = &mut *lent.narrow;
    let wide = &mut *lent.wide;
    let pool = &mut *lent.pool;
    let h = drop_unmarked(lent.heap, narrow, wide, pool, marks);
    lent.heap = heap_calls::recycle::recycle(h, narrow, wide, pool, pins);
}
