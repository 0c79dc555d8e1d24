// A heap that lies well formed in lent memory, to be read. What it is asked stands in `asked`.
ghost use Rattle.std.specs.Prelude.{◌≡◌, true};
ghost use Rattle.heap.specs.Lent.{lent};
ghost use Rattle.heap.specs.WellFormed.{well_formed};

use crate::Heap;

// A heap's header and the memory that it lies in, lent to be read.
#[derive(Clone, Copy)]
pub struct View<'a> {
    pub heap: Heap,
    pub narrow: &'a [u32],
    pub wide: &'a [u64],
    pub pool: &'a [u8],
    pub ghost formed: { well_formed (lent heap narrow.now wide.now pool.now) ≡ true },
}
