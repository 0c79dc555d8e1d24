// The commands of the program `replay` that trace a heap by the type table and leave it as it is: the handles of a slot, the roots for wanted slots, and whether all slots can be traced.
use answers::{List, front, put_told};
use fields::Fields;
use protocol::{Fault, NoCommand};
use refusal::Answer;
use replay_kept::Kept;
use replay_kept::table::Table;
use std::io;
use std::str::FromStr;
use yexwalu::{handles, heaps};

#[derive(Clone, Copy)]
pub enum Question {
    Handles,
    RootsFor,
    Traceable,
}

impl FromStr for Question {
    type Err = NoCommand;

    fn from_str(name: &str) -> Result<Question, NoCommand> {
        match name {
            "handles" => Ok(Question::Handles),
            "rootsfor" => Ok(Question::RootsFor),
            "traceable" => Ok(Question::Traceable),
            _ => Err(NoCommand),
        }
    }
}

// The most pins and wanted slots together.
const MOST_LISTED: usize = 65536;

// An answer that has a list: so many of its entries.
fn put_list(rt: &impl Print, a: Answer, out: &[u64]) -> io::Result<()> {
    put_told(rt, a, |count, _| print!(rt; " {}", List(front(out, count))))
}

// The handles of a slot. An object of the longest pool shows 8,192 handles at most.
fn show_handles(rt: &impl Print, kept: &Kept, t: &Table, slot: usize) -> io::Result<()> {
    // Kept: arrays, here and below, as in `replay_kept::ask`.
    let mut out = [7u64; 8192];
    let mut marks = [7u8; 8192];
    let mut work = [7u64; 8192];
    let a = handles::slot_handles(
        &t.types,
        &t.fields,
        &t.consts,
        &t.bytes,
        kept.heap,
        &kept.narrow,
        &kept.wide,
        &kept.pool,
        slot,
        &mut out,
        &mut marks,
        &mut work,
    );
    put_list(rt, a, &out)
}

// The roots for wanted slots. There are 8,192 slots at most.
fn show_roots(
    rt: &impl Print,
    kept: &Kept,
    t: &Table,
    pins: &[u32],
    wanted: &[u32],
) -> io::Result<()> {
    let mut out = [7u64; 8192];
    let mut marks = [7u8; 8192];
    let mut work = [7u64; 8192];
    let a = heaps::roots_for(
        &t.types,
        &t.fields,
        &t.consts,
        &t.bytes,
        kept.heap,
        &kept.narrow,
        &kept.wide,
        &kept.pool,
        pins,
        wanted,
        &mut out,
        &mut marks,
        &mut work,
    );
    put_list(rt, a, &out)
}

// Whether the heap and the table fit together.
fn traceable(kept: &Kept, t: &Table) -> Answer {
    let mut marks = [7u8; 8192];
    let mut work = [7u64; 8192];
    handles::traceable(
        &t.types,
        &t.fields,
        &t.consts,
        &t.bytes,
        kept.heap,
        &kept.narrow,
        &kept.wide,
        &kept.pool,
        &mut marks,
        &mut work,
    )
}

// The same, printed: with the first slot that does not, where there is one.
fn show_traceable(rt: &impl Print, kept: &Kept, t: &Table) -> io::Result<()> {
    let a = traceable(kept, t);
    match a.number {
        13 => println!(rt; "13 {}", a.first),
        number => println!(rt; "{number}"),
    }
}

/// Answers a question.
pub fn answer(
    rt: &impl Print,
    question: Question,
    line: &mut Fields,
    kept: &Kept,
    t: &Table,
) -> Result<(), Fault> {
    match question {
        Question::Handles => show_handles(rt, kept, t, line.word()? as usize)?,
        Question::RootsFor => {
            let pins = line.halves(MOST_LISTED)?;
            let wanted = line.halves(MOST_LISTED.saturating_sub(pins.len()))?;
            show_roots(rt, kept, t, &pins, &wanted)?;
        }
        Question::Traceable => show_traceable(rt, kept, t)?,
    }
    Ok(())
}
