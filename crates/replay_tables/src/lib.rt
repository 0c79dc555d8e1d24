// The commands of the program `replay` on a type table's text: a text that is read becomes the type table; the type table is written with the names that a line has.
#![tactic(auto)]

ghost use Rattle.std.specs.Prelude.{◌≡◌, ◌≢◌, IfErr};
ghost use Rattle.protocol.specs.declared.Fault.TheVariants.{Bad};
ghost use Rattle.replay_tables.specs.declared.Command.TheVariants.{Write};

use answers::{front, put_page_front, put_told};
use fields::Fields;
use protocol::{Fault, NoCommand};
use replay_kept::table::{MOST_BYTES, MOST_CONSTS, MOST_FIELDS, MOST_TYPES, Table};
use std::io;
use std::str::FromStr;
use yexwalu::{TableRead, table_text};

#[derive(Clone, Copy)]
pub enum Command {
    Read,
    Write,
}

impl FromStr for Command {
    type Err = NoCommand;

    fn from_str(name: &str) -> Result<Command, NoCommand> {
        match name {
            "readtable" => Ok(Command::Read),
            "writetable" => Ok(Command::Write),
            _ => Err(NoCommand),
        }
    }
}

// The call, with names and scratch of its own.
// Kept: arrays, here and below: scratch and room of one call. With `Vec`s each line would ask for 425 KB, and take three times as long.
fn call(
    types: &mut [u64],
    fields: &mut [u32],
    consts: &mut [u64],
    bytes: &mut [u8],
    text: &[u8],
) -> TableRead {
    let mut names = [7u8; 65536];
    let mut words = [7u64; 28672];
    let mut halves = [7u32; 32768];
    table_text::read_table(
        types,
        fields,
        consts,
        bytes,
        &mut names,
        text,
        &mut words,
        &mut halves,
    )
}

// Reads a text, and tells how much of each list the table takes. A refusal leaves the table that there was.
fn read(rt: &impl Print, line: &mut Fields, table: &mut Table) -> Result<(), Fault>
    ensures { IfErr result (λ e. e ≢ Bad) }
{
    let alloc = line.alloc();
    let text = line.text()?;
    let mut types = [7u64; MOST_TYPES];
    let mut fields = [7u32; MOST_FIELDS];
    let mut consts = [7u64; MOST_CONSTS];
    let mut bytes = [7u8; MOST_BYTES];
    let r = call(&mut types, &mut fields, &mut consts, &mut bytes, &text);
    if r.answer.number != 0 {
        println!(rt; "{}", r.answer.number)?;
        return Ok(());
    }
    println!(rt;
        "0 {} {} {} {} {}",
        r.types, r.fields, r.consts, r.bytes, r.names
    )?;
    *table = Table {
        types: Vec::from_slice(alloc, front(&types, r.types as u64))?,
        fields: Vec::from_slice(alloc, front(&fields, r.fields as u64))?,
        consts: Vec::from_slice(alloc, front(&consts, r.consts as u64))?,
        bytes: Vec::from_slice(alloc, front(&bytes, r.bytes as u64))?,
    };
    Ok(())
}

// Writes the table with these names, on one line.
fn write(rt: &impl Print, names: &[u8], t: &Table) -> io::Result<()> {
    let mut out = [7u8; 262144];
    let a = table_text::write_table(&t.types, &t.fields, &t.consts, &t.bytes, names, &mut out);
    put_told(rt, a, |length, _| put_page_front(rt, &mut out, length))
}

/// Runs a line. What follows the command is the text, or the names: it can always be read. To write the table leaves it as it is.
pub fn answer(
    rt: &impl Print,
    command: Command,
    line: &mut Fields,
    table: &mut Table,
) -> Result<(), Fault>
    ensures written { command ≡ Write → table.new ≡ table.old }
    ensures taken { IfErr result (λ e. e ≢ Bad) }
{
    match command {
        Command::Read => read(rt, line, table)?,
        Command::Write => write(rt, &line.text()?, table)?,
    }
    Ok(())
}
