// The commands of the program `replay` on two heaps, the current one and the other: they change places, or they are compared.
#![tactic(auto)]

ghost use Rattle.std.specs.Prelude.{◌≡◌, ◌≢◌, ◌≤◌};
ghost use Rattle.replay_saves.specs.declared.Command.TheVariants.{Swap};

use answers::{put_answer, put_told};
use fields::Fields;
use protocol::{Fault, NoCommand, WORD};
use refusal::Answer;
use replay_kept::Kept;
use replay_kept::table::Table;
use std::str::FromStr;
use std::{io, mem};
use yexwalu::heaps;

#[derive(Clone, Copy)]
pub enum Command {
    Swap,
    Same,
    Order,
}

impl FromStr for Command {
    type Err = NoCommand;

    fn from_str(name: &str) -> Result<Command, NoCommand> {
        match name {
            "swap" => Ok(Command::Swap),
            "same" => Ok(Command::Same),
            "order" => Ok(Command::Order),
            _ => Err(NoCommand),
        }
    }
}

// The most roots of the first heap, and of both.
const MOST_ROOTS: usize = 16384;

const MOST_WORDS: usize = 32768;

// The roots of the two heaps, the current heap's first.
#[derive(Drop)]
struct Roots {
    here: Vec<u64>,
    there: Vec<u64>,
}

impl Roots {
    fn read(line: &mut Fields) -> Result<Roots, Fault> {
        let here = line.words(WORD, MOST_ROOTS)?;
        let there = line.words(WORD, MOST_WORDS.saturating_sub(here.len()))?;
        Ok(Roots { here, there })
    }
}

// How many slots a heap's memory has: so much of the scratch is lent, since a call clears all that it is lent.
fn slots_of(kept: &Kept) -> usize
    ensures { result ≤ 8192 }
{
    (kept.narrow.len() / 6).min(8192)
}

// Kept: apart from `order`: a bound such as `FnOnce(..) -> Answer` of more than twelve arguments is refused, and the two calls have eighteen; closures over one struct of all that is lent
// would each write out the eighteen again.
fn same(kept: &Kept, other: &Kept, t: &Table, roots: &Roots) -> Answer {
    let mut marks = [7u8; 8192];
    let mut work = [7u64; 8192];
    let mut other_marks = [7u8; 8192];
    let mut other_work = [7u64; 8192];
    let here = slots_of(kept);
    let there = slots_of(other);
    heaps::same(
        &t.types,
        &t.fields,
        &t.consts,
        &t.bytes,
        kept.heap,
        &kept.narrow,
        &kept.wide,
        &kept.pool,
        other.heap,
        &other.narrow,
        &other.wide,
        &other.pool,
        &roots.here,
        &roots.there,
        &mut marks[..here],
        &mut work[..here],
        &mut other_marks[..there],
        &mut other_work[..there],
    )
}

fn order(kept: &Kept, other: &Kept, t: &Table, roots: &Roots) -> Answer {
    let mut marks = [7u8; 8192];
    let mut work = [7u64; 8192];
    let mut other_marks = [7u8; 8192];
    let mut other_work = [7u64; 8192];
    let here = slots_of(kept);
    let there = slots_of(other);
    heaps::order(
        &t.types,
        &t.fields,
        &t.consts,
        &t.bytes,
        kept.heap,
        &kept.narrow,
        &kept.wide,
        &kept.pool,
        other.heap,
        &other.narrow,
        &other.wide,
        &other.pool,
        &roots.here,
        &roots.there,
        &mut marks[..here],
        &mut work[..here],
        &mut other_marks[..there],
        &mut other_work[..there],
    )
}

// Which heap comes first.
fn put_order(rt: &impl Print, a: Answer) -> io::Result<()> {
    put_told(rt, a, |first, _| match first {
        0 => print!(rt; " less"),
        1 => print!(rt; " equal"),
        _ => print!(rt; " greater"),
    })
}

// Kept: a `match` on the command, since each has fields of its own to read.
/// Runs a line. One that compares the heaps leaves both as they are.
pub fn answer(
    rt: &impl Print,
    command: Command,
    line: &mut Fields,
    kept: &mut Kept,
    other: &mut Kept,
    t: &Table,
) -> Result<(), Fault>
    ensures swapped { command ≡ Swap → (kept.new ≡ other.old) × (other.new ≡ kept.old) }
    ensures compared { command ≢ Swap → (kept.new ≡ kept.old) × (other.new ≡ other.old) }
{
    match command {
        Command::Swap => {
            mem::swap(kept, other);
            println!(rt; "0")?;
        }
        Command::Same => put_answer(rt, same(kept, other, t, &Roots::read(line)?), 1)?,
        Command::Order => put_order(rt, order(kept, other, t, &Roots::read(line)?))?,
    }
    Ok(())
}
