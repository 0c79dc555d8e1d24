// The commands of the program `replay` that collect: from roots, or at a safepoint of the function; and the one that rehearses thresholds.
#![tactic(auto)]

ghost use Rattle.std.specs.Prelude.{◌≡◌, IfErr};
ghost use Rattle.protocol.specs.declared.Fault.TheVariants.{Bad};

pub mod rehearsals;

use answers::put_answer;
use door::Done;
use fields::Fields;
use protocol::{Fault, HALF, NoCommand, WORD};
use replay_code::Function;
use replay_kept::Kept;
use replay_kept::table::Table;
use std::str::FromStr;
use yexwalu::heaps;

#[derive(Clone, Copy)]
pub enum Collection {
    Plain,
    Joined,
}

impl FromStr for Collection {
    type Err = NoCommand;

    fn from_str(name: &str) -> Result<Collection, NoCommand> {
        match name {
            "collect" => Ok(Collection::Plain),
            "joined" => Ok(Collection::Joined),
            _ => Err(NoCommand),
        }
    }
}

// The most roots or values of registers; with the addresses and their slots; and numbers of a frame's map with the pins.
const MOST_ROOTS: usize = 16384;

const MOST_WORDS: usize = 32768;

const MOST_HALVES: usize = 65536;

// A place in the code, with what the frame and the registers hold there.
#[derive(Drop)]
struct Safepoint {
    pc: usize,
    values: Vec<u64>,
    map: Vec<u32>,
    memory: Vec<u8>,
    pins: Vec<u32>,
    addresses: Vec<u64>,
}

impl Safepoint {
    // A line may end before the addresses with their slots.
    fn read(line: &mut Fields) -> Result<Safepoint, Fault> {
        let pc = line.count(HALF)?;
        let values = line.words(WORD, MOST_ROOTS)?;
        let map = line.frame_map(MOST_HALVES)?;
        let memory = line.bytes()?;
        let pins = line.halves(MOST_HALVES.saturating_sub(map.len()))?;
        let addresses = if line.is_empty() {
            Vec::new(line.alloc())
        } else {
            line.words(WORD, MOST_WORDS.saturating_sub(values.len()))?
        };
        Ok(Safepoint {
            pc,
            values,
            map,
            memory,
            pins,
            addresses,
        })
    }
}

// The plain collection.
fn collect(kept: &mut Kept, t: &Table, roots: &[u64], pins: &[u32]) -> Done {
    let mut marks = [7u8; 8192];
    let mut work = [7u64; 8192];
    heaps::collect(
        &t.types,
        &t.fields,
        &t.consts,
        &t.bytes,
        kept.heap,
        &mut kept.narrow,
        &mut kept.wide,
        &mut kept.pool,
        roots,
        pins,
        &mut marks,
        &mut work,
    )
}

// The joined collection.
fn collect_joined(kept: &mut Kept, t: &Table, code: &Function, at: &Safepoint) -> Done {
    let mut marks = [7u8; 8192];
    let mut work = [7u64; 8192];
    // Kept: an array, scratch of one call; a `Vec` would only add a way to fail.
    let mut rows = [7u64; 131072];
    heaps::collect_joined(
        &t.types,
        &t.fields,
        &t.consts,
        &t.bytes,
        kept.heap,
        &mut kept.narrow,
        &mut kept.wide,
        &mut kept.pool,
        &code.kinds,
        &code.ends,
        &code.refs,
        &code.blocks,
        &code.classes,
        at.pc,
        &at.values,
        &at.map,
        &at.memory,
        &at.pins,
        &at.addresses,
        &mut marks,
        &mut work,
        &mut rows,
    )
}

/// Runs a line. One that can't be read leaves the heap as it is.
pub fn answer(
    rt: &impl Print,
    collection: Collection,
    line: &mut Fields,
    kept: &mut Kept,
    t: &Table,
    code: &Function,
) -> Result<(), Fault>
    ensures { IfErr result (λ e. e ≡ Bad → kept.new ≡ kept.old) }
{
    let done = match collection {
        Collection::Plain => {
            let roots = line.words(WORD, MOST_ROOTS)?;
            let pins = line.halves(MOST_HALVES)?;
            collect(kept, t, &roots, &pins)
        }
        Collection::Joined => {
            let at = Safepoint::read(line)?;
            collect_joined(kept, t, code, &at)
        }
    };
    kept.heap = done.heap;
    put_answer(rt, done.answer, 0)?;
    Ok(())
}
