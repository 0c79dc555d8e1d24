// The commands of the program `replay` that write the page of a heap, or tell how long it is.
use answers::{put_answer, put_page_front, put_told};
use fields::Fields;
use protocol::{Fault, NoCommand};
use refusal::Answer;
use replay_kept::{Kept, ask};
use std::io;
use std::str::FromStr;
use yexwalu::page;

#[derive(Clone, Copy)]
pub enum Question {
    Page,
    PageLength,
}

impl FromStr for Question {
    type Err = NoCommand;

    fn from_str(name: &str) -> Result<Question, NoCommand> {
        match name {
            "page" => Ok(Question::Page),
            "pagelen" => Ok(Question::PageLength),
            _ => Err(NoCommand),
        }
    }
}

// Has a page planes? Data also where nothing is said.
fn read_planar(line: &mut Fields) -> Result<bool, Fault> {
    if line.is_empty() {
        return Ok(false);
    }
    match line.name() {
        "data" => Ok(false),
        "planes" => Ok(true),
        _ => Err(Fault::Bad),
    }
}

// The page, on one line.
fn show_page(rt: &impl Print, kept: &Kept, planar: bool) -> io::Result<()> {
    let mut text = [0u8; 262144];
    let a = ask(kept, |heap, narrow, wide, pool, marks, work| {
        page::write_page(heap, narrow, wide, pool, planar, &mut text, marks, work)
    });
    put_told(rt, a, |length, _| put_page_front(rt, &mut text, length))
}

fn page_length(kept: &Kept, planar: bool) -> Answer {
    ask(kept, |heap, narrow, wide, pool, marks, work| {
        page::page_length(heap, narrow, wide, pool, planar, marks, work)
    })
}

/// Answers a question.
pub fn answer(
    rt: &impl Print,
    question: Question,
    line: &mut Fields,
    kept: &Kept,
) -> Result<(), Fault> {
    let planar = read_planar(line)?;
    match question {
        Question::Page => show_page(rt, kept, planar)?,
        Question::PageLength => put_answer(rt, page_length(kept, planar), 1)?,
    }
    Ok(())
}
