// Runs a script of calls from standard input through the front door, one answer a line.
#![tactic(auto)]

use replay_lines::{LONGEST, State};
use std::alloc::Global;
use std::io;
use std::io::{BufRead, BufReader, Read};

// Reads a line without its end; none where the input has ended. Of one that is too long the first `LONGEST` bytes are kept, and the rest is passed over.
fn read_line(reader: &mut impl BufRead, alloc: Global) -> io::Result<Option<Vec<u8>>> {
    let mut line = Vec::new(alloc);
    if reader
        .by_ref()
        .take(LONGEST as u64)
        .read_until(b'\n', &mut line)?
        == 0
    {
        return Ok(None);
    }
    if let Some(b'\n') = line.last() {
        line.pop();
    } else if LONGEST <= line.len() {
        reader.skip_until(b'\n')?;
    }
    Ok(Some(line))
}

fn main(rt: HostRuntime) -> io::Result<()> {
    // A buffer of its own: the reader that `rt` has takes one byte at a time from a pipe.
    let mut reader = BufReader::new(rt.alloc(), rt.stdin())?;
    let mut state = State::new(rt.alloc());
    state.begin()?;
    for _ in 0..u64::MAX {
        let Some(line) = read_line(&mut reader, rt.alloc())? else {
            return Ok(());
        };
        if LONGEST <= line.len() {
            println!(rt; "bad")?;
        } else {
            state.answer(&rt, &line)?;
        }
    }
    Ok(())
}
