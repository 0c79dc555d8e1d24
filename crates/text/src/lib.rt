// Text as bytes: decimal numbers without spare zeros, lowercase hexadecimal, literals.
#![tactic(auto)]

ghost use Rattle.std.specs.Prelude.{◌≡◌, ◌+◌, ◌-◌, ◌/◌, ◌≤◌, ◌<◌, length, drop, get_or, true, MatchOption, MatchBool};
ghost use Rattle.text.specs.Text.{decimal, hex, hex_digit, read_literal};
ghost use Rattle.text.specs.Reading.{scan, capped, read_decimal, hex_digit_of, read_hex, read_field};
ghost use Rattle.text.specs.Inner.Answer.{Stops, value_answer, literal_answer, hex_answer, hex_more, DigitAt, hex_at, HexParsed, HexDigit, HexDigits, HexRun};
ghost use Rattle.text.specs.Format.{either};
ghost use Rattle.text.specs.Inner.Puts.{Puts};
ghost use Rattle.std.proofs.Math.Option.{none, some};

pub mod hex;
pub mod output;

use hex::Hex;

// How many digits a number has.
pub fn decimal_len(n: u64) -> usize
    ensures { result ≡ length (decimal n) }
{
    if n < 10 { 1 } else { decimal_len(n / 10) + 1 }
}

// Puts a number in decimal from `at` on, and answers where it ends.
// Kept: std's `write!` into a slice answers an `io::Error`; here the room is asked for before, and no call fails.
pub fn put_decimal(out: &mut [u8], at: usize, n: u64) -> usize
    requires { at + length (decimal n) ≤ length out.old }
    ensures { Puts out.old out.new at result (decimal n) }
{
    if n < 10 {
        out[at] = 48 + (n as u8);
        at + 1
    } else {
        let k = put_decimal(out, at, n / 10);
        out[k] = 48 + ((n % 10) as u8);
        k + 1
    }
}

// The digit that stands at `at`, if there is one.
fn digit_at(s: &[u8], at: usize) -> Option<u64>
    ensures { MatchOption result (Stops (drop at s.now)) (λ d. DigitAt s.now at d) }
{
    match *s.get(at)? {
        b @ b'0'..=b'9' => Some(u64::from(b - b'0')),
        _ => None,
    }
}

// What follows the digits that spelled `first`, up to `most`, and where it ends.
fn get_more(s: &[u8], start: usize, first: u64, most: u64) -> Option<(u64, usize)>
    requires { (first ≤ most) × (start ≤ length s.now) }
    ensures { result ≡ value_answer (length s.now) (capped most (scan first (drop start s.now))) }
{
    let mut n = first;
    for i in start..s.len() {
        let Some(d) = digit_at(s, i) else {
            return Some((n, i));
        };
        n = n.checked_mul(10)?.checked_add(d)?;
        if most < n {
            return None;
        }
    }
    Some((n, s.len()))
}

// Reads a number of at most `most` from `at` on: the number and where it ends.
pub fn get_decimal(s: &[u8], at: usize, most: u64) -> Option<(u64, usize)>
    ensures { result ≡ value_answer (length s.now) (read_decimal most (drop at s.now)) }
{
    let first = digit_at(s, at)?;
    let next = at + 1;
    // Nothing follows a zero.
    if first == 0 && digit_at(s, next).is_some() {
        return None;
    }
    if most < first {
        return None;
    }
    get_more(s, next, first, most)
}

// Puts bytes as they are from `at` on, and answers where they end.
// Kept: with std's `copy_from_slice` the C archive would ask its host for `memmove`; of this loop the compiler makes `memcpy`.
pub fn put_literal(out: &mut [u8], at: usize, literal: &[u8]) -> usize
    requires { at + length literal.now ≤ length out.old }
    ensures { Puts out.old out.new at result literal.now }
{
    for i in 0..literal.len() {
        out[at + i] = literal[i];
    }
    at + literal.len()
}

fn hex_digit_of(d: u8) -> u8
    requires { d < 16 }
    ensures { result ≡ hex_digit d }
{
    if d < 10 { b'0' + d } else { b'a' - 10 + d }
}

// Puts bytes in hexadecimal from `at` on, and answers where they end.
pub fn put_hex(out: &mut [u8], at: usize, bytes: &[u8]) -> usize
    requires { at + length (hex bytes.now) ≤ length out.old }
    ensures { Puts out.old out.new at result (hex bytes.now) }
{
    let mut k = at;
    for b in bytes {
        out[k] = hex_digit_of(*b / 16);
        out[k + 1] = hex_digit_of(*b % 16);
        k += 2;
    }
    k
}

// Where a literal ends that stands in a text from `at` on.
// Kept: what is read from a place on is told of the text from there, `drop at s`, and so is what is left; a cursor that held both would be built and taken apart at each step, and its contracts would say the same.
pub fn expect(s: &[u8], at: usize, literal: &[u8]) -> Option<usize>
    requires { at ≤ length s.now }
    ensures { result ≡ literal_answer (length s.now) (read_literal literal.now (drop at s.now)) }
{
    if s[at..].starts_with(literal) {
        Some(at + literal.len())
    } else {
        None
    }
}

// Which of two literals stands in a text from `at` on, true for the first, and where it ends. The first is tried first.
pub fn expect_either(s: &[u8], at: usize, first: &[u8], second: &[u8]) -> Option<(bool, usize)>
    requires { at ≤ length s.now }
    ensures { result ≡ value_answer (length s.now) ((either first.now second.now).read (drop at s.now)) }
{
    if let Some(a) = expect(s, at, first) {
        return Some((true, a));
    }
    let b = expect(s, at, second)?;
    Some((false, b))
}

fn is_hex_digit(b: u8) -> bool
    ensures { MatchBool result (HexDigit b) (hex_digit_of b ≡ none) }
{
    matches!(b, b'0'..=b'9' | b'a'..=b'f')
}

fn hex_value(b: u8) -> u8
    requires { HexDigit b }
    ensures { hex_digit_of b ≡ some result }
{
    if b <= b'9' { b - b'0' } else { b - b'a' + 10 }
}

// Are there 32 hexadecimal digits from `at` on? All are looked at, so that the compiler takes many at a time.
fn hex_block(s: &[u8], at: usize) -> bool
    ensures { result ≡ true → HexDigits s.now at 32 }
{
    if s.len() < 32 || s.len() - 32 < at {
        return false;
    }
    let mut all = true;
    for b in &s[at..at + 32] {
        all &= is_hex_digit(*b);
    }
    all
}

// Where the blocks of 32 hexadecimal digits end that stand from `at` on.
fn hex_blocks(s: &[u8], at: usize) -> usize
    ensures { HexRun s.now at result ((result - at) / 2) }
{
    let mut i = at;
    // Kept: a block is told from the place where the last one ended; of 25 forms that were measured this is the fastest, 1.30 ms for 50 rounds of 256 KiB.
    while hex_block(s, i) {
        i += 32;
    }
    i
}

// Reads bytes in hexadecimal and the line's end from `first` on, digit by digit, after `count` bytes.
fn count_more(s: &[u8], first: usize, count: usize) -> Option<(usize, usize)>
    requires { count ≤ first }
    ensures { result ≡ hex_more (length s.now) count (read_hex (drop first s.now)) }
{
    let mut i = first;
    let mut n = count;
    // Kept: the line's end stops the loop, and no index; as a `for` over pairs of bytes it would need what follows the last pair beside it.
    loop {
        let a = *s.get(i)?;
        if a == b'\n' {
            return Some((n, i + 1));
        }
        let b = *s.get(i + 1)?;
        if !is_hex_digit(a) || !is_hex_digit(b) {
            return None;
        }
        i += 2;
        n += 1;
    }
}

// Reads bytes in hexadecimal and the line's end from `at` on: how many bytes there are, and where the line ends.
pub fn count_hex(s: &[u8], at: usize) -> Option<(usize, usize)>
    ensures { result ≡ hex_answer (length s.now) (read_hex (drop at s.now)) }
{
    let first = hex_blocks(s, at);
    count_more(s, first, (first - at) / 2)
}

// Reads a number of at most `most` and the byte `end` after it, from `at` on: the number and where it ends.
pub fn get_field(s: &[u8], at: usize, most: u64, end: u8) -> Option<(u64, usize)>
    ensures { result ≡ value_answer (length s.now) (read_field most end (drop at s.now)) }
{
    let (n, next) = get_decimal(s, at, most)?;
    if *s.get(next)? == end {
        Some((n, next + 1))
    } else {
        None
    }
}

// Byte i of those that a text spells in hexadecimal from `at` on.
pub fn hex_byte(s: &[u8], at: usize, i: usize) -> u8
    requires hex_parsed { HexParsed s.now at }
    requires i_in_bounds { i < length (hex_at s.now at) }
    ensures { result ≡ get_or (hex_at s.now at) i 0 }
{
    let k = at + 2 * i;
    16 * hex_value(s[k]) + hex_value(s[k + 1])
}

// Puts the `count` bytes that a text spells in hexadecimal from `at` on into `out` from `to` on, and answers where they end.
pub fn copy_hex(s: &[u8], at: usize, count: usize, out: &mut [u8], to: usize) -> usize
    requires hex_parsed { HexParsed s.now at }
    requires count_value { (count ≡ length (hex_at s.now at)) × (to + count ≤ length out.old) }
    ensures { Puts out.old out.new to result (hex_at s.now at) }
{
    let hex = Hex { text: s, at, count };
    hex.copy(out, to)
}
