// The commands of the program `replay` that place, change or take out an object of the heap that is kept.
#![tactic(auto)]

ghost use Rattle.std.specs.Prelude.{◌≡◌, IfErr};
ghost use Rattle.protocol.specs.declared.Fault.TheVariants.{Bad};

use answers::{front, put_answer, put_hex, put_told};
use fields::Fields;
use protocol::{Fault, NoCommand};
use refusal::Answer;
use replay_kept::{Kept, settle};
use std::io;
use std::str::FromStr;
use yexwalu::heaps;

#[derive(Clone, Copy)]
pub enum Change {
    Alloc,
    Fill,
    Edit,
    Write,
    Take,
    Free,
}

impl FromStr for Change {
    type Err = NoCommand;

    fn from_str(name: &str) -> Result<Change, NoCommand> {
        match name {
            "alloc" => Ok(Change::Alloc),
            "fill" => Ok(Change::Fill),
            "edit" => Ok(Change::Edit),
            "write" => Ok(Change::Write),
            "take" => Ok(Change::Take),
            "free" => Ok(Change::Free),
            _ => Err(NoCommand),
        }
    }
}

// Kind, type, start and bytes.
fn alloc(line: &mut Fields, kept: &mut Kept) -> Result<Answer, Fault>
    ensures { IfErr result (λ e. e ≡ Bad → kept.new ≡ kept.old) }
{
    let kind = line.byte()?;
    let ty = line.half()?;
    let start = line.word()? as usize;
    let bytes = line.bytes()?;
    Ok(place(kept, kind, ty, start, &bytes))
}

fn place(kept: &mut Kept, kind: u8, ty: u32, start: usize, bytes: &[u8]) -> Answer {
    settle(kept, |heap, narrow, wide, pool, marks, work| {
        heaps::alloc_from(
            heap, narrow, wide, pool, kind, ty, start, bytes, marks, work,
        )
    })
}

// So many empty objects of kind 2, one after the other: the last answer, if there is one.
fn fill(line: &mut Fields, kept: &mut Kept) -> Result<Option<Answer>, Fault>
    ensures { IfErr result (λ e. e ≡ Bad → kept.new ≡ kept.old) }
{
    let mut last = None;
    // The scratch is lent to all of them: each call leaves it zero, and relies on nothing that it finds there.
    let mut marks = [7u8; 8192];
    let mut work = [7u64; 8192];
    for _ in 0..line.word()? {
        let done = heaps::alloc_from(
            kept.heap,
            &mut kept.narrow,
            &mut kept.wide,
            &mut kept.pool,
            2,
            0,
            0,
            b"",
            &mut marks,
            &mut work,
        );
        kept.heap = done.heap;
        last = Some(done.answer);
    }
    Ok(last)
}

// Handle, bytes and start.
fn edit(line: &mut Fields, kept: &mut Kept) -> Result<Answer, Fault>
    ensures { IfErr result (λ e. e ≡ Bad → kept.new ≡ kept.old) }
{
    let handle = line.word()?;
    let bytes = line.bytes()?;
    let start = line.word()? as usize;
    Ok(settle(kept, |heap, narrow, wide, pool, marks, work| {
        heaps::edit(heap, narrow, wide, pool, handle, &bytes, start, marks, work)
    }))
}

// Slot, offset and bytes.
fn write(line: &mut Fields, kept: &mut Kept) -> Result<Answer, Fault>
    ensures { IfErr result (λ e. e ≡ Bad → kept.new ≡ kept.old) }
{
    let slot = line.slot()?;
    let offset = line.word()? as usize;
    let bytes = line.bytes()?;
    let mut marks = [7u8; 8192];
    let mut work = [7u64; 8192];
    Ok(heaps::write(
        kept.heap,
        &kept.narrow,
        &mut kept.wide,
        &mut kept.pool,
        slot,
        offset,
        &bytes,
        &mut marks,
        &mut work,
    ))
}

// The bytes of an object that is taken out go to `room`.
fn take(kept: &mut Kept, handle: u64, room: &mut [u8]) -> Answer {
    settle(kept, |heap, narrow, wide, pool, marks, work| {
        heaps::take(heap, narrow, wide, pool, handle, room, marks, work)
    })
}

fn free(line: &mut Fields, kept: &mut Kept) -> Result<Answer, Fault>
    ensures { IfErr result (λ e. e ≡ Bad → kept.new ≡ kept.old) }
{
    let handle = line.word()?;
    Ok(settle(kept, |heap, narrow, wide, pool, marks, work| {
        heaps::free(heap, narrow, wide, pool, handle, marks, work)
    }))
}

// The last of so many answers.
fn put_filled(rt: &impl Print, last: Option<Answer>) -> io::Result<()> {
    match last {
        Some(a) => put_answer(rt, a, 1),
        None => println!(rt; "none"),
    }
}

// An object that is taken out: its bytes and its start.
fn show_taken(rt: &impl Print, kept: &mut Kept, handle: u64) -> io::Result<()> {
    let mut room = [0u8; 65536];
    let a = take(kept, handle, &mut room);
    put_told(rt, a, |length, start| {
        put_hex(rt, front(&room, length))?;
        print!(rt; " {start}")
    })
}

/// Runs a line that changes an object. One that can't be read leaves the heap as it is.
// Kept: a `match` on the command, since each has fields of its own to read.
pub fn answer(
    rt: &impl Print,
    change: Change,
    line: &mut Fields,
    kept: &mut Kept,
) -> Result<(), Fault>
    ensures { IfErr result (λ e. e ≡ Bad → kept.new ≡ kept.old) }
{
    match change {
        Change::Alloc => put_answer(rt, alloc(line, kept)?, 1)?,
        Change::Fill => put_filled(rt, fill(line, kept)?)?,
        Change::Edit => put_answer(rt, edit(line, kept)?, 1)?,
        Change::Write => put_answer(rt, write(line, kept)?, 0)?,
        Change::Take => show_taken(rt, kept, line.word()?)?,
        Change::Free => put_answer(rt, free(line, kept)?, 0)?,
    }
    Ok(())
}
