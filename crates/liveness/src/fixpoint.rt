// The rows of all blocks in one scratch: gen and kill, the live-out of a block, and the passes to the least fixpoint.
// Kept: the scratch goes beside the `Flow` or `Plan`, with `Room` and `b < count` as clauses. Of a `&mut` in a struct of both, a caller would know no more than
// the length after a step that lends a part of it on.
ghost use Rattle.std.specs.Prelude.{◌≡◌, Bool, true, false, ◌||◌, List, ℕ, ◌+◌, ◌-◌, ◌*◌, ◌≤◌, ◌<◌, length, get_or};
ghost use Rattle.flow.specs.Function.{existing};
ghost use Rattle.flow.specs.Dataflow.{back, killed, out};
ghost use Rattle.code.specs.Inner.Plans.{part_seen, all_seen, tested};
ghost use Rattle.liveness.specs.Inner.Scratch.{Outside, cell, live_at, turn_of, Linked, Pass, Solved, Fixed};
ghost use Rattle.liveness.specs.Inner.Plans.{out_row, Room, StartChains, BegunIn, BuiltIn};
ghost use Rattle.std.specs.List.{list_any};

use crate::chains::{BlockChains, NO_BLOCK};
use code::{Flow, Plan, Registers};
use rows::Step;
use transfer::{back_row, kill_row};

// The row at `at` becomes zero.
fn clear_row(s: &mut [u64], at: usize, words: usize)
    requires { at + words ≤ length s.old }
    ensures { Outside s.old s.new at words × ((q : ℕ) → q < 64 * words → cell s.new at q ≡ false) }
{
    let past = at + words;
    s[at..past].fill(0);
}

// The row at `at`, lent on to be written, goes back over the instructions from..to.
pub fn back_at(
    s: &mut [u64],
    registers: &Registers,
    at: usize,
    words: usize,
    from: usize,
    to: usize,
)
    requires words_in_bounds { at + words ≤ length s.old }
    requires from_le_to { (from ≤ to) × (3 * to ≤ length registers.now.ends.now) × (length registers.now.classes.now ≤ 64 * words) }
    ensures { Outside s.old s.new at words × ((ks bs : List ℕ) (q : ℕ) → q < 64 * words → cell s.new at q
        ≡ back (part_seen registers.now ks bs) q from (to - from) (cell s.old at q)) }
{
    let past = at + words;
    back_row(&mut s[at..past], registers, from, to);
}

// The row at `at`, lent on to be written, gets the registers that the instructions from..to write.
// Kept: apart from `back_at`, since each has a law of its own.
fn kill_at(s: &mut [u64], registers: &Registers, at: usize, words: usize, from: usize, to: usize)
    requires words_in_bounds { at + words ≤ length s.old }
    requires from_le_to { (from ≤ to) × (3 * to ≤ length registers.now.ends.now) × (length registers.now.classes.now ≤ 64 * words) }
    ensures { Outside s.old s.new at words × ((ks bs : List ℕ) (q : ℕ) → q < 64 * words → cell s.new at q
        ≡ killed (part_seen registers.now ks bs) q from (to - from) || cell s.old at q) }
{
    let past = at + words;
    kill_row(&mut s[at..past], registers, from, to);
}

// The row at dst gets the registers of the row at src too.
fn join(s: &mut [u64], dst: usize, src: usize, words: usize)
    requires { (src + words ≤ dst) × (dst + words ≤ length s.old) }
    ensures { Outside s.old s.new dst words × ((q : ℕ) → q < 64 * words → cell s.new dst q ≡ cell s.old src q || cell s.old dst q) }
{
    for w in 0..words {
        s[dst + w] |= s[src + w];
    }
}

// The row after the blocks' gets the live-in registers of those of the target blocks that exist.
fn join_targets(s: &mut [u64], flow: &Flow, targets: &[u32])
    requires { out_row flow.now + flow.now.words ≤ length s.old }
    ensures { Outside s.old s.new (out_row flow.now) flow.now.words × ((q : ℕ) → q < 64 * flow.now.words → cell s.new (out_row flow.now) q
        ≡ list_any (live_at s.old flow.now.words flow.now.blocks.count q) (existing flow.now.blocks.count targets.now) || cell s.old (out_row flow.now) q) }
{
    let Flow { blocks, words, .. } = *flow;
    let nb = blocks.count;
    let stride = 3 * words;
    let out = nb * stride;
    for target in targets {
        let t = *target as usize;
        if t < nb {
            join(s, out, t * stride, words);
        }
    }
}

// The row after the blocks' gets the live-out of block b.
fn leave(s: &mut [u64], flow: &Flow, b: usize)
    requires nb_value { (b < flow.now.blocks.count) × Room flow.now s.old × Linked flow.now.blocks.bounds.now s.old flow.now.words flow.now.blocks.count }
    ensures { Outside s.old s.new (out_row flow.now) flow.now.words
        × ((t : ℕ → Bool) (cs : List ℕ) (q : ℕ) → q < 64 * flow.now.words → cell s.new (out_row flow.now) q
        ≡ out (tested flow.now t cs) (live_at s.old flow.now.words flow.now.blocks.count q) b || cell s.old (out_row flow.now) q) }
{
    let Flow {
        kinds,
        registers,
        blocks,
        words,
        ..
    } = *flow;
    let nb = blocks.count;
    let stride = 3 * words;
    let at = nb * stride;
    let st = blocks.bounds[2 * b] as usize;
    let e = blocks.bounds[2 * b + 1] as usize;
    if e <= st {
        return;
    }
    let k = kinds[e - 1];
    if 2 <= k {
        if k <= 4 {
            let j = 3 * (e - 1) + 1;
            let from = registers.ends[j] as usize;
            let to = registers.ends[j + 1] as usize;
            join_targets(s, flow, &registers.refs[from..to]);
            return;
        }
        if k <= 6 {
            return;
        }
    }
    let t = s[b * stride + 2 * words] as usize;
    if t < nb {
        join(s, at, t * stride, words);
    }
}

// The row after the blocks' becomes the live-out of block b.
pub fn gather(s: &mut [u64], flow: &Flow, b: usize)
    requires nb_value { (b < flow.now.blocks.count) × Room flow.now s.old × (0 < flow.now.words → Linked flow.now.blocks.bounds.now s.old flow.now.words flow.now.blocks.count) }
    ensures { Outside s.old s.new (out_row flow.now) flow.now.words
        × ((t : ℕ → Bool) (cs : List ℕ) (q : ℕ) → q < 64 * flow.now.words → cell s.new (out_row flow.now) q
        ≡ out (tested flow.now t cs) (live_at s.old flow.now.words flow.now.blocks.count q) b) }
{
    let Flow { blocks, words, .. } = *flow;
    if words == 0 {
        return;
    }
    clear_row(s, blocks.count * (3 * words), words);
    leave(s, flow, b);
}

// The block that a pass comes to at turn i: from the last to the first, or the other way round.
fn block_of_turn(rising: bool, nb: usize, i: usize) -> usize
    requires { i < nb }
    ensures { result ≡ turn_of rising nb i }
{
    if rising { i } else { nb - 1 - i }
}

// One pass over the blocks. Whether a live-in row got more.
fn pass(s: &mut [u64], flow: &Flow, rising: bool) -> bool
    requires nb_value { Room flow.now s.old × Linked flow.now.blocks.bounds.now s.old flow.now.words flow.now.blocks.count }
    ensures { Pass flow.now.kinds.now flow.now.registers.ends.now flow.now.registers.refs.now flow.now.blocks.bounds.now s.old s.new flow.now.blocks.count flow.now.words result }
{
    let Flow { blocks, words, .. } = *flow;
    let nb = blocks.count;
    let stride = 3 * words;
    let at = nb * stride;
    let mut changed = false;
    for i in 0..nb {
        let b = block_of_turn(rising, nb, i);
        gather(s, flow, b);
        let live = b * stride;
        let step = Step {
            words,
            live,
            made: at + words,
            out: at,
            kill: live + words,
        };
        let grown = step.run_before(s, at + 2 * words);
        if grown {
            changed = true;
        }
    }
    changed
}

// Passes until nothing changes. Each goes from the last block to the first, against the code's order, as what is live does; but one of four, the third, goes
// the other way round: it takes along branches back, from one to the next, what would take a pass for each of them.
fn solve(s: &mut [u64], flow: &Flow)
    requires nb_value { Room flow.now s.old × Linked flow.now.blocks.bounds.now s.old flow.now.words flow.now.blocks.count }
    ensures { Solved flow.now.kinds.now flow.now.registers.ends.now flow.now.registers.refs.now flow.now.blocks.bounds.now s.old s.new flow.now.blocks.count flow.now.words }
{
    let mut done: u8 = 0;
    while pass(s, flow, done % 4 == 2) {
        done = done.wrapping_add(1);
    }
}

// The rows of block b, in words that are zero: gen, kill, and the block that it falls through to.
fn start_block(s: &mut [u64], plan: &Plan, b: usize, starts: &BlockChains)
    requires nb_value { (b < plan.now.flow.blocks.count) × Room plan.now.flow s.old × (0 < plan.now.flow.words) × StartChains plan.now.flow.blocks starts.now.heads starts.now.links }
    requires by_index { (i : ℕ) → b * (3 * plan.now.flow.words) ≤ i → get_or s.old i 0 ≡ 0 }
    ensures { BegunIn plan.now s.old s.new b }
{
    let Flow {
        registers,
        blocks,
        words,
        ..
    } = plan.flow;
    let st = blocks.bounds[2 * b] as usize;
    let e = blocks.bounds[2 * b + 1] as usize;
    if e <= st {
        return;
    }
    let at = b * (3 * words);
    back_at(s, &registers, at, words, st, e);
    kill_at(s, &registers, at + words, words, st, e);
    let t = starts.first_at(&blocks, 0, e);
    s[at + 2 * words] = t as u64;
}

// The rows of every block, in a scratch of zeros, from the chains of the blocks by their start.
fn start_blocks(s: &mut [u64], plan: &Plan, starts: &BlockChains)
    requires nb_value { Room plan.now.flow s.old × (0 < plan.now.flow.words) × StartChains plan.now.flow.blocks starts.now.heads starts.now.links }
    requires by_index_2 { (i : ℕ) → get_or s.old i 0 ≡ 0 }
    ensures { BuiltIn plan.now s.old s.new }
{
    for b in 0..plan.flow.blocks.count {
        start_block(s, plan, b, starts);
    }
}

// The rows of every block, in a scratch of zeros.
fn build(s: &mut [u64], plan: &Plan)
    requires nb_value { Room plan.now.flow s.old × (0 < plan.now.flow.words) }
    requires by_index_2 { (i : ℕ) → get_or s.old i 0 ≡ 0 }
    ensures { BuiltIn plan.now s.old s.new }
{
    let mut starts = BlockChains {
        heads: [NO_BLOCK; 4096],
        links: [NO_BLOCK; 4096],
    };
    starts.chain(&plan.flow.blocks, 0);
    start_blocks(s, plan, &starts);
}

// The live-in row of every block.
pub fn analyse(s: &mut [u64], plan: &Plan)
    requires nb_value { Room plan.now.flow s.old }
    ensures { (length s.new ≡ length s.old) × Fixed (all_seen plan.now) plan.now.flow.blocks.bounds.now s.new plan.now.flow.words plan.now.flow.blocks.count }
{
    s.fill(0);
    if plan.flow.words == 0 {
        return;
    }
    build(s, plan);
    solve(s, &plan.flow);
}
