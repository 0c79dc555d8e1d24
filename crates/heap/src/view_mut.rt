// A heap that lies well formed in lent memory, and the loans.
ghost use Rattle.std.specs.Prelude.{◌≡◌, true};
ghost use Rattle.heap.specs.Lent.{lent};
ghost use Rattle.heap.specs.WellFormed.{well_formed};

use crate::Heap;
use crate::view::View;

// A heap's header and the memory that it lies in, lent to be changed.
#[derive(Drop)]
pub struct ViewMut<'a> {
    pub heap: Heap,
    pub narrow: &'a mut [u32],
    pub wide: &'a mut [u64],
    pub pool: &'a mut [u8],
    pub ghost formed: { well_formed (lent heap narrow.now wide.now pool.now) ≡ true },
}

impl ViewMut<'_> {
    ghost use Rattle.heap.specs.Inner.Seen.{seen};
    ghost use Rattle.heap.specs.Inner.Loans.{lies};

    // The heap, to be read.
    pub fn view(&self) -> View<'_>
        ensures { seen result ≡ lies self.now }
    {
        View {
            heap: self.heap,
            narrow: &*self.narrow,
            wide: &*self.wide,
            pool: &*self.pool,
        }
    }
}
