// The commands of the program `replay` that put a heap in the place of the one that is kept, or set what stands in its header.
#![tactic(auto)]

ghost use Rattle.std.specs.Prelude.{◌≡◌, IfErr};
ghost use Rattle.protocol.specs.declared.Fault.TheVariants.{Bad};

use answers::{put_answer, put_told};
use door::Done;
use fields::Fields;
use heap::Heap;
use protocol::{Fault, NoCommand};
use refusal::Answer;
use replay_kept::{Kept, MOST_POOL, MOST_SLOTS};
use std::alloc::{AllocError, Global};
use std::io;
use std::str::FromStr;
use yexwalu::heaps;

#[derive(Clone, Copy)]
pub enum Command {
    New,
    Load,
    Read,
    SetEpoch,
}

impl FromStr for Command {
    type Err = NoCommand;

    fn from_str(name: &str) -> Result<Command, NoCommand> {
        match name {
            "new" => Ok(Command::New),
            "load" => Ok(Command::Load),
            "read" => Ok(Command::Read),
            "setepoch" => Ok(Command::SetEpoch),
            _ => Err(NoCommand),
        }
    }
}

// The answer of a call that makes a heap of these sizes: one that is refused leaves the heap that was there. Where that has the same sizes it is made in its memory, which a refusal leaves as it was.
fn settle_new<F: FnOnce(Heap, &mut [u32], &mut [u64], &mut [u8], &mut [u8], &mut [u64]) -> Done>(
    kept: &mut Kept,
    alloc: Global,
    slots: usize,
    pool: usize,
    call: F,
) -> Result<Answer, AllocError>
    requires { F.IsAlwaysCallable call }
{
    let mut marks = [7u8; 8192];
    let mut work = [7u64; 8192];
    if kept.has_sizes(slots, pool) {
        let done = call(
            kept.heap,
            &mut kept.narrow,
            &mut kept.wide,
            &mut kept.pool,
            &mut marks,
            &mut work,
        );
        if done.answer.number == 0 {
            kept.heap = done.heap;
        }
        return Ok(done.answer);
    }
    let mut new = Kept::new(alloc, slots, pool)?;
    let done = call(
        kept.heap,
        &mut new.narrow,
        &mut new.wide,
        &mut new.pool,
        &mut marks,
        &mut work,
    );
    if done.answer.number == 0 {
        new.heap = done.heap;
        *kept = new;
    }
    Ok(done.answer)
}

// The most slots of a log as a line has it.
const MOST_LISTED: usize = 65536;

// Tag, slots and pool.
fn make(line: &mut Fields, kept: &mut Kept) -> Result<Answer, Fault>
    ensures { IfErr result (λ e. e ≡ Bad → kept.new ≡ kept.old) }
{
    let tag = line.byte()?;
    let slots = line.count(MOST_SLOTS)?;
    let pool = line.count_or(MOST_POOL)?;
    let answer = settle_new(
        kept,
        line.alloc(),
        slots,
        pool,
        |_, narrow, wide, pool, marks, work| { heaps::new(tag, narrow, wide, pool, marks, work) },
    )?;
    Ok(answer)
}

// Slots, a page, and the pool.
fn load(line: &mut Fields, kept: &mut Kept) -> Result<Answer, Fault>
    ensures { IfErr result (λ e. e ≡ Bad → kept.new ≡ kept.old) }
{
    let slots = line.count(MOST_SLOTS)?;
    let text = line.page()?;
    let pool = line.count_or(MOST_POOL)?;
    let answer = settle_new(
        kept,
        line.alloc(),
        slots,
        pool,
        |heap, narrow, wide, pool, marks, work| {
            yexwalu::page::read_page(heap, narrow, wide, pool, &text, marks, work)
        },
    )?;
    Ok(answer)
}

// The epoch and a log of 16 slots, which stand in the header.
fn set_epoch(line: &mut Fields, kept: &mut Kept) -> Result<(), Fault>
    ensures { IfErr result (λ e. e ≡ Bad → kept.new ≡ kept.old) }
{
    let epoch = line.word()?;
    let slots = line.halves(MOST_LISTED)?;
    let log = <[u32; 16]>::try_from(slots.as_slice()).map_err(|_| Fault::Bad)?;
    kept.heap.epoch = epoch;
    kept.heap.log = log;
    Ok(())
}

// A page that was read: how many bits its write counts have, 1 with `retired` and 0 without, and its column.
fn put_form(rt: &impl Print, a: Answer) -> io::Result<()> {
    put_told(rt, a, |bits, form| {
        let column = if form < 2 { "data" } else { "planes" };
        print!(rt; " {bits} {} {column}", form % 2)
    })
}

/// Runs a line. One that can't be read leaves the heap as it is.
// Kept: a `match` on the command, since each has fields of its own to read.
pub fn answer(
    rt: &impl Print,
    command: Command,
    line: &mut Fields,
    kept: &mut Kept,
) -> Result<(), Fault>
    ensures { IfErr result (λ e. e ≡ Bad → kept.new ≡ kept.old) }
{
    match command {
        Command::New => put_answer(rt, make(line, kept)?, 0)?,
        Command::Load => put_answer(rt, load(line, kept)?, 0)?,
        Command::Read => put_form(rt, load(line, kept)?)?,
        Command::SetEpoch => {
            set_epoch(line, kept)?;
            println!(rt; "0")?;
        }
    }
    Ok(())
}
