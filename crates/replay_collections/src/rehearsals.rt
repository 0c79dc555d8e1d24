// The command of the program `replay` that rehearses collection thresholds, in memory of its own: the heap of the script stays as it is.
use answers::{put_page_front, put_told};
use fields::Fields;
use heap::Heap;
use protocol::{Fault, WORD};
use refusal::Answer;
use replay_kept::table::Table;
use yexwalu::heaps;

/// The name of the command.
pub const NAME: &str = "rehearse";

// The most slots, bytes and thresholds. 80 bytes are printed for each threshold.
const MOST_SLOTS: u64 = 2048;

const MOST_POOL: u64 = 65536;

const MOST_THRESHOLDS: usize = 256;

const MOST_PRINTED: usize = 20480;

// The call, with a heap of so many slots and bytes, of at most as many as a line may ask for, and scratch of its own.
fn rehearse(
    slots: usize,
    pool: usize,
    t: &Table,
    text: &[u8],
    thresholds: &[u64],
    out: &mut [u8],
) -> Answer {
    // Kept: arrays, here and below: memory, scratch and room of one call. With `Vec`s each line would ask for up to 180 KB, and take over three times as long.
    let mut narrow = [0u32; 12288];
    let mut wide = [0u64; 8192];
    let mut bytes = [0u8; 65536];
    let mut names = [7u64; 4096];
    let mut marks = [7u8; 2048];
    let mut work = [7u64; 2048];
    let done = heaps::rehearse(
        &t.types,
        &t.fields,
        &t.consts,
        &t.bytes,
        Heap::new(1),
        &mut narrow[..6 * slots.min(2048)],
        &mut wide[..4 * slots.min(2048)],
        &mut bytes[..pool.min(65536)],
        text,
        thresholds,
        out,
        &mut names,
        &mut marks,
        &mut work,
    );
    done.answer
}

/// Runs a line: slots, bytes and thresholds, then the text. What is printed stands on one line; `-` for nothing.
pub fn answer(rt: &impl Print, line: &mut Fields, t: &Table) -> Result<(), Fault> {
    let slots = line.count(MOST_SLOTS)?;
    let pool = line.count(MOST_POOL)?;
    let thresholds = line.words(WORD, MOST_THRESHOLDS)?;
    let text = line.script()?;
    let mut out = [7u8; MOST_PRINTED];
    let a = rehearse(slots, pool, t, &text, &thresholds, &mut out);
    put_told(rt, a, |length, _| match length {
        0 => print!(rt; " -"),
        _ => put_page_front(rt, &mut out, length),
    })?;
    Ok(())
}
