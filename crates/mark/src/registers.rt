// What a joined collection gets of a safepoint.
ghost use Rattle.std.specs.Prelude.{◌≡◌, length};

// The registers of a function: the class and the value of each, and which of them are live, as a row of bits.
#[derive(Clone, Copy)]
pub struct Registers<'a> {
    pub classes: &'a [u8],
    pub row: &'a [u64],
    pub values: &'a [u64],
    pub ghost valued: { length classes.now ≡ length values.now },
}

// A frame map, three words an entry, and the frame's memory.
#[derive(Clone, Copy)]
pub struct Frame<'a> {
    pub map: &'a [u32],
    pub memory: &'a [u8],
}
