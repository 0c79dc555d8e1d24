// What the program `replay` keeps from line to line: a heap, and the type table that lines make; and how a call is lent a heap and scratch.
#![tactic(auto)]

ghost use Rattle.std.specs.Prelude.{◌≡◌, [], length, replicate, true, IfOk};
ghost use Rattle.heap.specs.Lent.{header_of};
ghost use Rattle.heap.specs.Calls.{new as new_heap};

use door::Done;
use heap::Heap;
use refusal::Answer;
use std::alloc::{AllocError, Global};

pub mod table;

/// The most slots and bytes of a heap.
pub const MOST_SLOTS: u64 = 8192;

pub const MOST_POOL: u64 = 65536;

/// A heap: its header, six numbers of 32 bits and four of 64 bits a slot, and its data.
#[derive(Drop)]
pub struct Kept {
    pub heap: Heap,
    pub narrow: Vec<u32>,
    pub wide: Vec<u64>,
    pub pool: Vec<u8>,
}

impl Kept {
    /// A heap of tag 1 without slots and data.
    pub fn empty(alloc: Global) -> Kept
        ensures lists { (result.narrow.items ≡ []) × (result.wide.items ≡ []) × (result.pool.items ≡ []) }
        ensures header { result.heap ≡ header_of (new_heap 1) }
    {
        Kept {
            heap: Heap::new(1),
            narrow: Vec::new(alloc),
            wide: Vec::new(alloc),
            pool: Vec::new(alloc),
        }
    }

    /// A heap of tag 1, in memory that is zero.
    pub fn new(alloc: Global, slots: usize, pool: usize) -> Result<Kept, AllocError>
        ensures { IfOk result (λ kept. length kept.pool.items ≡ pool) }
    {
        let mut kept = Kept::empty(alloc);
        kept.narrow = vec![in alloc; 0; slots.saturating_mul(6)]?;
        kept.wide = vec![in alloc; 0; slots.saturating_mul(4)]?;
        kept.pool = vec![in alloc; 0; pool]?;
        Ok(kept)
    }

    /// Has its memory room for so many slots and bytes, no more and no fewer?
    pub fn has_sizes(&self, slots: usize, pool: usize) -> bool
        ensures { result ≡ true → length self.now.pool.items ≡ pool }
    {
        self.narrow.len() == slots.saturating_mul(6)
            && self.wide.len() == slots.saturating_mul(4)
            && self.pool.len() == pool
    }
}

/// Scratch for a call, in one value. It holds 7 everywhere, since no call may rely on what it finds
/// there.
// Kept: arrays, as in `ask`. The commands have two arrays where they make a call: a `Scratch` that
// a function answers is copied.
#[derive(Clone, Copy)]
pub struct Scratch {
    pub marks: [u8; 8192],
    pub work: [u64; 8192],
}

impl Scratch {
    pub fn new() -> Scratch
        ensures { (result.marks ≡ replicate 8192 7) × (result.work ≡ replicate 8192 7) }
    {
        Scratch {
            marks: [7; 8192],
            work: [7; 8192],
        }
    }
}

/// What a call answers that is lent the heap and scratch. The scratch holds 7 everywhere, since no call may rely on what it finds there.
// Kept: arrays, here and where a call of the front door is lent room for its answer: they last for one call and never change their length. With `vec![in alloc; 7; 8192]?` in their place
// `ask` and all that go through it would answer a `Result` for memory that can't run out now. A function that answers both would have them copied.
pub fn ask<F: FnOnce(Heap, &[u32], &[u64], &[u8], &mut [u8], &mut [u64]) -> Answer>(
    kept: &Kept,
    call: F,
) -> Answer
    requires { F.IsAlwaysCallable call }
{
    let mut marks = [7u8; 8192];
    let mut work = [7u64; 8192];
    call(
        kept.heap,
        &kept.narrow,
        &kept.wide,
        &kept.pool,
        &mut marks,
        &mut work,
    )
}

/// The answer of a call that is lent the heap and scratch, and whose header is the heap's from now on.
pub fn settle<F: FnOnce(Heap, &mut [u32], &mut [u64], &mut [u8], &mut [u8], &mut [u64]) -> Done>(
    kept: &mut Kept,
    call: F,
) -> Answer
    requires { F.IsAlwaysCallable call }
{
    let mut marks = [7u8; 8192];
    let mut work = [7u64; 8192];
    let done = call(
        kept.heap,
        &mut kept.narrow,
        &mut kept.wide,
        &mut kept.pool,
        &mut marks,
        &mut work,
    );
    kept.heap = done.heap;
    done.answer
}

#[cfg(test)]
mod tests {
    use super::*;

    #[test]
    fn holds_sevens(rt: HostRuntime) {
        let scratch = Scratch::new();
        assert!(rt; scratch.marks == [7; 8192] && scratch.work == [7; 8192]);
    }
}
