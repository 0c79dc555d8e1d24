// A text that is written into a lent page.
ghost use Rattle.std.specs.Prelude.{◌+◌, ◌≤◌, length};
ghost use mathlib.Core.List.{[], ◌∷◌, ◌++◌};
ghost use Rattle.text.specs.Text.{decimal, hex};
ghost use Rattle.text.specs.Inner.Wrote.{Wrote};

// The page, and how far it is written.
#[derive(Drop)]
pub struct Out<'a> {
    pub page: &'a mut [u8],
    pub at: usize,
}

impl Out<'_> {
    // Puts a number in decimal.
    pub fn decimal(&mut self, n: u64)
        requires { self.old.at + length (decimal n) ≤ length self.old.page.now }
        ensures { Wrote self.old self.new (decimal n) }
    {
        self.at = crate::put_decimal(self.page, self.at, n);
    }

    // Puts a byte.
    pub fn byte(&mut self, b: u8)
        requires { self.old.at + 1 ≤ length self.old.page.now }
        ensures { Wrote self.old self.new (b ∷ []) }
    {
        self.page[self.at] = b;
        self.at += 1;
    }

    // Puts a number in decimal, and a byte after it.
    pub fn value(&mut self, n: u64, end: u8)
        requires { self.old.at + length (decimal n ++ (end ∷ [])) ≤ length self.old.page.now }
        ensures { Wrote self.old self.new (decimal n ++ (end ∷ [])) }
    {
        self.decimal(n);
        self.byte(end);
    }

    // Puts bytes as they are.
    pub fn literal(&mut self, literal: &[u8])
        requires { self.old.at + length literal.now ≤ length self.old.page.now }
        ensures { Wrote self.old self.new literal.now }
    {
        self.at = crate::put_literal(self.page, self.at, literal);
    }

    // Puts bytes in hexadecimal.
    pub fn hex(&mut self, bytes: &[u8])
        requires { self.old.at + length (hex bytes.now) ≤ length self.old.page.now }
        ensures { Wrote self.old self.new (hex bytes.now) }
    {
        self.at = crate::put_hex(self.page, self.at, bytes);
    }
}
