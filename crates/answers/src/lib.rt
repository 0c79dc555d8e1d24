// Answers of a script's lines, for the program `replay`, each written to standard output.
#![tactic(auto)]

ghost use Rattle.std.specs.Prelude.{◌≡◌, ◌++◌, map, take, drop, OnOk, Ok};
ghost use Rattle.answers.specs.Inner.Folding.{folded};

use refusal::Answer;
use std::fmt::{self, Display};
use std::io;

/// Entries with commas between them; `-` for none.
#[derive(Drop)]
pub struct List<'a, T>(pub &'a [T]);

impl<'a, T: Display> Display for List<'a, T> {
    fn fmt<W: fmt::Write>(&self, f: &mut fmt::Formatter<W>) -> fmt::Result {
        let Some((first, rest)) = self.0.split_first() else {
            return write!(f, "-");
        };
        write!(f, "{first}")?;
        for x in rest {
            write!(f, ",{x}")?;
        }
        Ok(())
    }
}

/// Bytes in hexadecimal; `-` for none. `put_hex` writes a large object's in less time.
#[derive(Clone, Copy)]
pub struct Hex<'a>(pub &'a [u8]);

impl<'a> Display for Hex<'a> {
    fn fmt<W: fmt::Write>(&self, f: &mut fmt::Formatter<W>) -> fmt::Result {
        if self.0.is_empty() {
            return write!(f, "-");
        }
        for b in self.0 {
            write!(f, "{b:02x}")?;
        }
        Ok(())
    }
}

/// The first `count` entries of a list, as many as there are.
pub fn front<T>(s: &[T], count: u64) -> &[T]
    ensures { result.now ≡ take count s.now }
{
    s.get(..count as usize).unwrap_or(s)
}

/// An answer's line: the number of a refusal alone, else 0 and what `put` writes of its two values.
pub fn put_told<F: FnOnce(u64, u64) -> io::Result<()>>(
    rt: &impl Print,
    a: Answer,
    put: F,
) -> io::Result<()>
    requires { F.IsAlwaysCallable put }
    ensures { OnOk result (a.number ≡ 0 → F.post put a.first a.second (Ok tt)) }
{
    print!(rt; "{}", a.number)?;
    if a.number == 0 {
        put(a.first, a.second)?;
    }
    println!(rt; "")
}

/// The same with so many of its values.
pub fn put_answer(rt: &impl Print, a: Answer, values: usize) -> io::Result<()> {
    put_told(rt, a, |x, y| match values {
        0 => Ok(()),
        1 => print!(rt; " {x}"),
        _ => print!(rt; " {x} {y}"),
    })
}

// A page's byte, with `;` for byte 10.
fn folded(b: u8) -> u8
    ensures { result ≡ folded b }
{
    if b == b'\n' { b';' } else { b }
}

// Puts text on one line.
fn fold(text: &mut [u8])
    ensures { text.new ≡ map folded text.old }
{
    for b in text.iter_mut() {
        *b = folded(*b);
    }
}

/// A space, then the first `length` bytes of a page on one line. These are changed, and the clause says to which; what is written no clause can name.
pub fn put_page_front(rt: &impl Print, page: &mut [u8], length: u64) -> io::Result<()>
    ensures { page.new ≡ map folded (take length page.old) ++ drop length page.old }
{
    let n = page.len().min(length as usize);
    fold(&mut page[..n]);
    print!(rt; " ")?;
    rt.write_all(&page[..n])
}

/// Writes what `put_page_front` writes. All of the lent page is changed, also what is behind the
/// first `length` bytes.
pub fn put_page(rt: &impl Print, page: &mut [u8], length: u64) -> io::Result<()>
    ensures { page.new ≡ map folded page.old }
{
    let n = page.len().min(length as usize);
    fold(&mut page[n..]);
    put_page_front(rt, page, n as u64)
}

/// A space, then bytes in hexadecimal; `-` for none.
// Kept: they are put by `text::put_hex`, many at once. A `Display` that writes byte by byte takes ten times as long for a large object.
pub fn put_hex(rt: &impl Print, bytes: &[u8]) -> io::Result<()> {
    if bytes.is_empty() {
        return print!(rt; " -");
    }
    print!(rt; " ")?;
    let mut room = [0u8; 8192];
    for part in bytes.chunks(4096) {
        let n = text::put_hex(&mut room, 0, part);
        rt.write_all(front(&room, n as u64))?;
    }
    Ok(())
}

#[cfg(test)]
mod tests {
    use super::*;

    #[test]
    fn spells_bytes(rt: HostRuntime) -> io::Result<()> {
        for (bytes, spelled) in [(b"" as &[u8], "-"), (b"\x00\x0a\xff", "000aff")] {
            let text = format!(in rt.alloc(); "{}", Hex(bytes))?;
            assert_eq!(rt; text.as_str(), spelled);
        }
        Ok(())
    }

    #[test]
    fn changes_all_of_a_page(rt: HostRuntime) -> io::Result<()> {
        let mut page = *b"1\n2\n3\n";
        put_page(&rt, &mut page, 4)?;
        assert_eq!(rt; page, *b"1;2;3;");
        let mut page = *b"1\n2\n3\n";
        put_page_front(&rt, &mut page, 4)?;
        assert_eq!(rt; page, *b"1;2;3\n");
        Ok(())
    }
}
