// What the program `page` prints (01, "Page"): the lines of its input are run on a heap of tag 1, 64 slots and 4,096 bytes, and its page is printed, or a refusal alone. A run goes
// through the input as it comes: `begin`, `go_on` with each part of it, `finish`. Their contracts say that what is left to be printed stays the same at each step, so what `finish` puts
// is the text that `printed` gives for the whole input. `print_all` does so for an input that is there at once.
#![tactic(auto)]

ghost use Rattle.std.specs.Prelude.{◌≡◌, ◌-◌, ◌≤◌, take, drop, false, IsTrue, ◌↔◌};
ghost use Rattle.text.specs.Text.{read_literal};
ghost use Rattle.heap.specs.Lent.{view};
ghost use Rattle.pages.specs.Page.{value_line, page_text};
ghost use Rattle.pages.specs.Form.{written};
ghost use Rattle.page_runs.specs.Printed.{names_line, printed};
ghost use Rattle.page_runs.specs.Inner.Steps.{Ran, Cut, is_there, is_over, over_with};
ghost use Rattle.page_runs.specs.Steps.{text_left, Begun, Goes, Ends};
ghost use Rattle.page_runs.specs.Inner.Held.{lies};
ghost use Rattle.page_runs.specs.Inner.Long.{Open, HeadFound, AllHex, Shortens};

use heap::Heap;

mod running;

pub use running::Running;

// Where a run stands: the names line is due, lines are run, or it is over and prints this number.
// Kept: the number of a refusal as the call of the front door answers it, which is printed as it is.
#[derive(Clone, Copy)]
pub enum At {
    Names,
    Lines,
    Over(u64),
}

// A run: its heap, where it stands, and how many bytes of the input are held at the start of the buffer.
#[derive(Clone, Copy)]
pub struct Run {
    pub heap: Heap,
    pub at: At,
    pub held: usize,
}

impl Run {
    // Is the run over, whatever input follows?
    pub fn is_over(self) -> bool
        ensures { result ≡ is_over self.at }
    {
        matches!(self.at, At::Over(_))
    }

    // At its end, where it prints this number.
    fn over(self, number: u64) -> Run
        ensures { result ≡ over_with self number }
    {
        Run {
            at: At::Over(number),
            held: 0,
            ..self
        }
    }
}

// Where the last whole line ends.
fn whole(s: &[u8]) -> usize
    ensures { Cut s.now result }
{
    match s.iter().rposition(|b| *b == b'\n') {
        Some(i) => i + 1,
        None => 0,
    }
}

// Where the data of a line starts that begins like an `alloc` line.
fn data_start(s: &[u8]) -> Option<usize>
    ensures { HeadFound s.now result }
{
    let a = text::expect(s, 0, b"alloc,")?;
    let (_, b) = text::get_field(s, a, 4294967295, 44)?;
    let (_, c) = text::get_field(s, b, 255, 44)?;
    Some(c)
}

// Is there nothing but hexadecimal digits?
fn all_hex(s: &[u8]) -> bool
    ensures { IsTrue result ↔ AllHex s.now }
{
    s.iter().all(|b| matches!(*b, b'0'..=b'9' | b'a'..=b'f'))
}

// How many bytes stand for a line that fills the buffer and goes on. More data than the pool takes is refused whatever it is, so that of an `alloc` line 4,097 bytes of data
// are enough, and the last digit where the number of digits is odd. None: it is no call's line, whatever follows.
fn shorten(buf: &mut [u8; 65536]) -> Option<usize>
    requires { Open buf.old }
    ensures { Shortens buf.old buf.new result }
{
    let from = data_start(buf)?;
    if !all_hex(&buf[from..]) {
        return None;
    }
    let odd = (65536 - from) % 2;
    memory::move_within(buf, 65536 - odd, from + 8194, odd);
    Some(from + 8194 + odd)
}

// Holds the bytes from `from` up to `end`, where no line ends, at the start of the buffer; those of a line that fills it are shortened, so that there is room to read on.
fn keep(buf: &mut [u8; 65536], from: usize, end: usize) -> Option<usize>
    requires { (from ≤ end) × (end ≤ 65536) × Open (take (end - from) (drop from buf.old)) }
    ensures { Shortens (take (end - from) (drop from buf.old)) buf.new result }
{
    let n = end - from;
    memory::move_within(buf, from, 0, n);
    if n < 65536 {
        return Some(n);
    }
    shorten(buf)
}

// Does the text begin with the names line?
fn named(s: &[u8]) -> bool
    ensures { result ≡ is_there (read_literal names_line s.now) }
{
    text::expect(s, 0, b"call,number,kind,bytes\n").is_some()
}

// The number of a refusal, alone.
fn put_number(out: &mut [u8; 14592], number: u64) -> usize
    ensures { Ends (value_line number) out.new result }
{
    let k = text::put_decimal(out, 0, number);
    text::put_literal(out, k, b"\n")
}

impl Running {
    // A new heap, and a run at its start.
    // Kept: arrays of fixed size, so that no step can fail for want of memory.
    pub fn begin() -> Running
        ensures { Begun result.run (lies result) }
    {
        let mut narrow = [0u32; 384];
        let mut wide = [0u64; 256];
        let mut pool = [0u8; 4096];
        let mut marks = [0u8; 64];
        let mut work = [0u64; 64];
        let made = object_door::yexwalu_new(
            1,
            &mut narrow,
            &mut wide,
            &mut pool,
            &mut marks,
            &mut work,
        );
        Running {
            run: Run {
                heap: made.heap,
                at: At::Names,
                held: 0,
            },
            narrow,
            wide,
            pool,
            room: [0u8; 4096],
            marks,
            work,
        }
    }

    // Runs the lines of a script until one is refused; the number of its refusal.
    fn run_part(&mut self, script: &[u8]) -> Result<(), u64>
        ensures { Ran self.old.run (lies self.old) script.now self.new.run (lies self.new) result }
    {
        let narrow = &mut self.narrow;
        let wide = &mut self.wide;
        let pool = &mut self.pool;
        let room = &mut self.room;
        let marks = &mut self.marks;
        let work = &mut self.work;
        let done = run_door::yexwalu_run(
            self.run.heap,
            narrow,
            wide,
            pool,
            script,
            room,
            marks,
            work,
        );
        self.run.heap = done.heap;
        let number = done.answer.number;
        if number != 0 {
            return Err(number);
        }
        Ok(())
    }

    // Runs the whole lines of the bytes from `from` up to `end`, and holds what is left.
    fn run_lines(&mut self, buf: &mut [u8; 65536], from: usize, end: usize)
        requires { (from ≤ end) × (end ≤ 65536) }
        ensures { Goes At.Lines (lies self.old) (take (end - from) (drop from buf.old))
            self.new.run (lies self.new) buf.new }
    {
        let to = from + whole(&buf[from..end]);
        if let Err(number) = self.run_part(&buf[from..to]) {
            self.run = self.run.over(number);
            return;
        }
        let Some(held) = keep(buf, to, end) else {
            self.run = self.run.over(17);
            return;
        };
        self.run = Run {
            at: At::Lines,
            held,
            ..self.run
        };
    }

    // Goes on with the first `n` bytes of the buffer: those that were held, and those that were read after them.
    pub fn go_on(&mut self, buf: &mut [u8; 65536], n: usize)
        requires { n ≤ 65536 }
        ensures { Goes self.old.run.at (lies self.old) (take n buf.old)
            self.new.run (lies self.new) buf.new }
    {
        match self.run.at {
            At::Over(number) => {
                self.run = self.run.over(number);
            }
            At::Lines => self.run_lines(buf, 0, n),
            At::Names => {
                if n < 23 {
                    self.run.held = n;
                    return;
                }
                if !named(&buf[..n]) {
                    self.run = self.run.over(17);
                    return;
                }
                self.run_lines(buf, 23, n);
            }
        }
    }

    // The page of the heap.
    fn put_page(&mut self, out: &mut [u8; 14592]) -> usize
        ensures { Ends (page_text (written false) (view (lies self.old))) out.new result }
    {
        let narrow = &self.narrow;
        let wide = &self.wide;
        let pool = &self.pool;
        let marks = &mut self.marks;
        let work = &mut self.work;
        let heap = self.run.heap;
        widths::words(heap, narrow, wide, pool);
        let written = page_door::yexwalu_write_page(
            heap, narrow, wide, pool, false, out, marks, work,
        );
        written.first as usize
    }

    // The end of the input, or of what could be read of it: all that is printed, and how long it is. What is held is a line that lacks its end, and is run as it is.
    pub fn finish(&mut self, buf: &[u8; 65536], failed: bool, out: &mut [u8; 14592]) -> usize
        ensures { Ends (text_left self.old.run.at failed (view (lies self.old)) (take self.old.run.held buf.now))
            out.new result }
    {
        match self.run.at {
            At::Over(number) => put_number(out, number),
            At::Names => put_number(out, 17),
            At::Lines => {
                if let Err(number) = self.run_part(&buf[..self.run.held]) {
                    return put_number(out, number);
                }
                if failed {
                    return put_number(out, 17);
                }
                self.put_page(out)
            }
        }
    }
}

// All that is printed for an input, in parts that the lent buffer takes. What the buffer held before isn't looked at.
pub fn print_all_with(
    input: &[u8],
    failed: bool,
    buf: &mut [u8; 65536],
    out: &mut [u8; 14592],
) -> usize
    ensures { Ends (printed failed input.now) out.new result }
{
    let mut running = Running::begin();
    let mut rest = input;
    // Kept: how much a turn takes is what the run leaves room for, so that no iterator gives the parts.
    while !rest.is_empty() {
        let held = running.run.held;
        let more = rest.len().min(65536 - held);
        memory::copy(buf, held, &rest[..more]);
        running.go_on(buf, held + more);
        rest = &rest[more..];
    }
    running.finish(buf, failed, out)
}

// ALL THAT IS PRINTED for an input. `failed`: the input could not be read to its end.
// Kept: a buffer of fixed size, as the library has no heap.
pub fn print_all(input: &[u8], failed: bool, out: &mut [u8; 14592]) -> usize
    ensures { Ends (printed failed input.now) out.new result }
{
    let mut buf = [0u8; 65536];
    print_all_with(input, failed, &mut buf, out)
}
