// The commands of the program `replay` that ask a heap.
#![tactic(auto)]

use answers::{List, front, put_answer, put_hex, put_told};
use fields::Fields;
use protocol::{Fault, NoCommand};
use refusal::Answer;
use replay_kept::{Kept, ask};
use std::io;
use std::str::FromStr;
use yexwalu::heaps;

#[derive(Clone, Copy)]
pub enum Question {
    GcDue,
    ReclaimDue,
    HasQuarantine,
    IsPlain,
    Resolve,
    Data,
    Kind,
    Stamp,
    Slots,
    Epoch,
}

impl FromStr for Question {
    type Err = NoCommand;

    fn from_str(name: &str) -> Result<Question, NoCommand> {
        match name {
            "gcdue" => Ok(Question::GcDue),
            "reclaimdue" => Ok(Question::ReclaimDue),
            "hasquarantine" => Ok(Question::HasQuarantine),
            "isplain" => Ok(Question::IsPlain),
            "resolve" => Ok(Question::Resolve),
            "data" => Ok(Question::Data),
            "kind" => Ok(Question::Kind),
            "stamp" => Ok(Question::Stamp),
            "slots" => Ok(Question::Slots),
            "epoch" => Ok(Question::Epoch),
            _ => Err(NoCommand),
        }
    }
}

// The slots and the live ones as one answer.
fn put_counts(rt: &impl Print, kept: &Kept) -> io::Result<()> {
    let slots = ask(kept, heaps::slots);
    if slots.number != 0 {
        return put_answer(rt, slots, 0);
    }
    put_told(
        rt,
        ask(kept, heaps::live),
        |live, _| print!(rt; " {} {live}", slots.first),
    )
}

// Visible data, which lies in the pool.
fn show_data(rt: &impl Print, kept: &Kept, i: usize) -> io::Result<()> {
    let a = ask(kept, |heap, narrow, wide, pool, marks, work| {
        heaps::data(heap, narrow, wide, pool, i, marks, work)
    });
    put_told(rt, a, |from, length| {
        let rest = kept.pool.get(from as usize..).unwrap_or(&[]);
        put_hex(rt, front(rest, length))
    })
}

// The epoch and the log, which stand in the header.
fn show_epoch(rt: &impl Print, kept: &Kept) -> io::Result<()> {
    println!(rt; "0 {} {}", kept.heap.epoch, List(&kept.heap.log))
}

// The same calls, each with what a line has.
fn gc_due(kept: &Kept, threshold: u64) -> Answer {
    ask(kept, |heap, narrow, wide, pool, marks, work| {
        heaps::gc_due(heap, narrow, wide, pool, threshold, marks, work)
    })
}

fn is_plain(kept: &Kept, tag: u8) -> Answer {
    ask(kept, |heap, narrow, wide, pool, marks, work| {
        heaps::is_plain(heap, narrow, wide, pool, tag, marks, work)
    })
}

fn resolve(kept: &Kept, handle: u64) -> Answer {
    ask(kept, |heap, narrow, wide, pool, marks, work| {
        heaps::resolve(heap, narrow, wide, pool, handle, marks, work)
    })
}

fn kind(kept: &Kept, i: usize) -> Answer {
    ask(kept, |heap, narrow, wide, pool, marks, work| {
        heaps::kind(heap, narrow, wide, pool, i, marks, work)
    })
}

fn stamp(kept: &Kept, i: usize) -> Answer {
    ask(kept, |heap, narrow, wide, pool, marks, work| {
        heaps::stamp(heap, narrow, wide, pool, i, marks, work)
    })
}

/// Answers a question.
// Kept: a `match` on the question, since each has fields of its own to read.
pub fn answer(
    rt: &impl Print,
    question: Question,
    line: &mut Fields,
    kept: &Kept,
) -> Result<(), Fault> {
    match question {
        Question::GcDue => put_answer(rt, gc_due(kept, line.word()?), 1)?,
        Question::ReclaimDue => put_answer(rt, ask(kept, heaps::reclaim_due), 1)?,
        Question::HasQuarantine => put_answer(rt, ask(kept, heaps::has_quarantine), 1)?,
        Question::IsPlain => put_answer(rt, is_plain(kept, line.byte()?), 1)?,
        Question::Resolve => put_answer(rt, resolve(kept, line.word()?), 1)?,
        Question::Data => show_data(rt, kept, line.slot()?)?,
        Question::Kind => put_answer(rt, kind(kept, line.slot()?), 2)?,
        Question::Stamp => put_answer(rt, stamp(kept, line.slot()?), 2)?,
        Question::Slots => put_counts(rt, kept)?,
        Question::Epoch => show_epoch(rt, kept)?,
    }
    Ok(())
}
