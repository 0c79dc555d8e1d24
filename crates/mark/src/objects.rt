// What of a lent heap is traced: the slots with their kinds and types, where the data of each starts and ends, and the pool in which it lies.
ghost use Rattle.std.specs.Prelude.{◌≡◌};
ghost use Rattle.heap.specs.Inner.Seen.{state};
ghost use Rattle.mark.specs.Inner.Graph.{Fit};

use handle::Slots;
use heap::view::View;

// A heap's slots, the columns of starts and ends, and the pool in which the data lies.
#[derive(Clone, Copy)]
pub struct Objects<'a> {
    pub slots: Slots<'a>,
    pub wide: &'a [u64],
    pub pool: &'a [u8],
    pub ghost fit: { Fit slots.slots slots.s slots.narrow.now wide.now pool.now },
}

impl<'a> Objects<'a> {
    ghost use Rattle.std.specs.Prelude.{◌<◌};
    ghost use Rattle.word.specs.Run.{run};
    ghost use Rattle.heap.specs.Packing.{data_at};
    ghost use Rattle.mark.specs.Inner.Objects.{laid, laid_in};

    // What of a well formed heap is traced.
    pub fn of(view: View<'a>) -> Objects<'a>
        ensures { laid result ≡ laid_in view.entry }
    {
        let View {
            heap,
            narrow,
            wide,
            pool,
        } = view;
        let slots = Slots {
            tag: heap.tag,
            slots: heap.slots,
            s: narrow.len() / 6,
            narrow,
        };
        Objects { slots, wide, pool }
    }

    // The data of slot i.
    pub fn data_of(self, i: usize) -> &'a [u8]
        requires { i < self.slots.slots }
        ensures { result.now ≡ data_at (run self.entry.slots.s self.entry.slots.s self.entry.wide.now) self.entry.pool.now i }
    {
        let from = heap::start_of(self.wide, self.slots.s, i);
        let to = self.wide[self.slots.s + i] as usize;
        &self.pool[from..to]
    }
}

// The seals of a well formed heap.
pub fn seals<'a>(view: View<'a>) -> &'a [u64]
    ensures { result.now ≡ (state view.entry).sealed }
{
    let View {
        heap,
        narrow,
        wide,
        pool: _,
    } = view;
    let s = narrow.len() / 6;
    let from = 3 * s;
    let to = from + heap.sealed;
    &wide[from..to]
}
