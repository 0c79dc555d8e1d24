// Pages that were damaged, each read into lent memory of 8 slots and 8 pool bytes, which holds 7 everywhere, as the header does: a line says what was done, the number that
// the host is told, and whether header and memory are still the same.
//
// A line TITLE|PAGE of standard input has a page, which is damaged at every place; a line NAME|OLD|NEW has a damage of that page, the first OLD made NEW. `;` stands for byte 10
// and `^` for byte 13; a line ends by byte 10 or 0. Of the input the first 32,768 bytes are run.
#![tactic(auto)]

ghost use Rattle.std.specs.Prelude.{◌≤◌, length, IfOk};

use page_damage::{NUMBERS, count_everywhere, find, read_damaged_limited};
use std::io;
use std::io::Read;

// The first `old` of a page replaced by `new`.
fn damage(rt: &impl Print, name: &[u8], page: &[u8], old: &[u8], new: &[u8]) -> io::Result<()> {
    rt.write_all(name)?;
    let Some(at) = find(page, old) else {
        return println!(rt; ": not there");
    };
    let seen = read_damaged_limited(page, at, old.len(), new);
    println!(rt; ": {} {}", seen.number, seen.name())
}

// How often each number is the answer, of all places in a page.
fn tally(rt: &impl Print, name: &str, page: &[u8], old: usize, new: &[u8]) -> io::Result<()> {
    let counts = count_everywhere(page, old, new);
    print!(rt; "{name}: 17 {} times", counts[0])?;
    for (number, count) in NUMBERS.iter().zip(counts.iter()).skip(1) {
        print!(rt; ", {number} {count}")?;
    }
    println!(rt; "")
}

// One damage at every place: a byte made another, dropped, added, the rest cut off.
fn everywhere(rt: &impl Print, title: &[u8], page: &[u8]) -> io::Result<()> {
    let damages: [(&str, usize, &[u8]); 6] = [
        ("cut short", page.len(), b""),
        ("a byte made x", 1, b"x"),
        ("a byte made 1", 1, b"1"),
        ("a byte dropped", 1, b""),
        ("a zero added", 0, b"0"),
        ("a line's end added", 0, b"\n"),
    ];
    rt.write_all(title)?;
    println!(rt; "")?;
    for (name, old, new) in damages {
        tally(rt, name, page, old, new)?;
    }
    Ok(())
}

// The byte that a byte of the input stands for. A line then ends by 0.
fn meant(b: u8) -> u8 {
    match b {
        b'\n' => 0,
        b';' => b'\n',
        b'^' => b'\r',
        b => b,
    }
}

// Runs the lines of the input, each with the page that came last.
fn run(rt: &impl Print, input: &[u8]) -> io::Result<()> {
    let mut page: &[u8] = b"";
    for line in input.split(|b| *b == 0) {
        let mut fields = line.splitn(3, |b| *b == b'|');
        let name = fields.next().unwrap_or(b"");
        match (fields.next(), fields.next()) {
            (Some(old), Some(new)) => damage(rt, name, page, old, new)?,
            (Some(whole), None) => {
                everywhere(rt, name, whole)?;
                page = whole;
            }
            _ => {}
        }
    }
    Ok(())
}

// Reads until the list is full or the input ends: how many bytes came.
fn read_full(reader: &mut impl Read, list: &mut [u8]) -> io::Result<usize>
    ensures { IfOk result (λ n. n ≤ length list.old) }
{
    let mut n = 0;
    for _ in 0..u64::MAX {
        let more = reader.read(&mut list[n..])?;
        if more == 0 {
            break;
        }
        n += more;
    }
    Ok(n)
}

// Kept: the program asks for no memory, so that it can't run out of it, however long the input is.
fn main(rt: HostRuntime) -> io::Result<()> {
    let mut input = [0u8; 32768];
    let n = read_full(&mut rt.stdin(), &mut input)?;
    for b in input.iter_mut() {
        *b = meant(*b);
    }
    run(&rt, &input[..n])
}
