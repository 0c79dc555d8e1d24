// Scripts, each put through `page_runs::print_all_with` as the program `page` would print it: once where the input ends with it, once where it could not be read on.
//
// Standard input has the scripts, each with byte `|` after it. `~` stands for 1,000 hexadecimal digits, so that a line can be longer than the buffer. Of the input the first
// 65,536 bytes are run, of a script the first 262,144.
#![tactic(auto)]

ghost use Rattle.std.specs.Prelude.{◌≤◌, length, IfOk};

use std::io;
use std::io::Read;

// A script as it is meant, as far as there is room, and how long it is.
fn unfold(folded: &[u8], script: &mut [u8; 262144]) -> usize
    ensures { result ≤ 262144 }
{
    let mut n = 0;
    for b in folded {
        let (byte, count) = match *b {
            b'~' => (b'a', 1000),
            b => (b, 1),
        };
        let end = script.len().min(n + count);
        script[n..end].fill(byte);
        n = end;
    }
    n
}

// What a run is lent, once for all scripts.
// Kept: a page has at most as many bytes, and `print_all_with` asks for these sizes by its types.
#[derive(Drop)]
struct Lent {
    buf: [u8; 65536],
    out: [u8; 14592],
}

// What is printed for an input.
fn show(rt: &impl Print, input: &[u8], failed: bool, lent: &mut Lent) -> io::Result<()> {
    let n = page_runs::print_all_with(input, failed, &mut lent.buf, &mut lent.out);
    rt.write_all(&lent.out[..n])
}

// Reads until the list is full or the input ends: how many bytes came.
fn read_full(reader: &mut impl Read, list: &mut [u8]) -> io::Result<usize>
    ensures { IfOk result (λ n. n ≤ length list.old) }
{
    let mut n = 0;
    for _ in 0..u64::MAX {
        let more = reader.read(&mut list[n..])?;
        if more == 0 {
            break;
        }
        n += more;
    }
    Ok(n)
}

// Kept: the program asks for no memory, so that it can't run out of it, however long the input is.
fn main(rt: HostRuntime) -> io::Result<()> {
    let mut input = [0u8; 65536];
    let n = read_full(&mut rt.stdin(), &mut input)?;
    let mut script = [0u8; 262144];
    let mut lent = Lent {
        buf: [0; 65536],
        out: [0; 14592],
    };
    for part in input[..n].split_inclusive(|b| *b == b'|') {
        let folded = part.strip_suffix(b"|").unwrap_or(part);
        let size = unfold(folded, &mut script);
        rt.println("ended")?;
        show(&rt, &script[..size], false, &mut lent)?;
        rt.println("failed")?;
        show(&rt, &script[..size], true, &mut lent)?;
    }
    Ok(())
}
