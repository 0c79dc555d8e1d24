// Bytes that a text spells in hexadecimal.
ghost use Rattle.std.specs.Prelude.{◌≡◌, ◌≢◌, ◌+◌, ◌≤◌, ◌<◌, length, drop, get_or};
ghost use Rattle.std.proofs.Math.Option.{none};
ghost use Rattle.text.specs.Reading.{read_hex};
ghost use Rattle.text.specs.Inner.Answer.{hex_at};
ghost use Rattle.text.specs.Inner.Puts.{Puts};

// A text, where it begins to spell bytes, and how many they are.
#[derive(Clone, Copy)]
pub struct Hex<'a> {
    pub text: &'a [u8],
    pub at: usize,
    pub count: usize,
    pub ghost spelled: { (read_hex (drop at text.now) ≢ none) × (count ≡ length (hex_at text.now at)) },
}

impl Hex<'_> {
    // Byte i.
    pub fn byte(self, i: usize) -> u8
        requires { i < self.count }
        ensures { result ≡ get_or (hex_at self.entry.text.now self.entry.at) i 0 }
    {
        crate::hex_byte(self.text, self.at, i)
    }

    // Puts the bytes into `out` from `to` on, and answers where they end.
    pub fn copy(self, out: &mut [u8], to: usize) -> usize
        requires { to + self.count ≤ length out.old }
        ensures { Puts out.old out.new to result (hex_at self.entry.text.now self.entry.at) }
    {
        let count = self.count;
        for i in 0..count {
            out[to + i] = self.byte(i);
        }
        to + count
    }
}
