// Two objects side by side: kind, type, start and length as numbers, then the bytes outside the handle places, then the handles.
#![tactic(auto)]

ghost use Rattle.std.specs.Prelude.{◌≡◌, ◌≤◌, ◌<◌, ◌-◌, length, take, drop};
ghost use Rattle.std.proofs.Math.Option.{none};
ghost use Rattle.ty.specs.Inner.Lent.{lent};
ghost use Rattle.trace.specs.Places.{shown_places};
ghost use Rattle.alike.specs.Order.{order};
ghost use Rattle.alike.specs.Inner.ByTurns.{◌and_then◌};
ghost use Rattle.beside.specs.Inner.Ranks.{slots_resolve, place_in};
ghost use Rattle.compare_objects.specs.Inner.Sides.{data_beside};
ghost use Rattle.compare_objects.specs.Inner.Lent.{shown_by, sides_order};

use beside::Met;
use handle::Slots;
use mark::Objects;
use std::cmp::Ordering;
use ty::Table;

mod head; // kind, type, start and length

pub use head::Head;

// The first that is not equal decides: what is found before, then the bytes from..to, which are looked at only where all before is equal.
fn then_bytes(before: Ordering, data: &[u8], other: &[u8], from: usize, to: usize) -> Ordering
    requires { (to ≤ length «data».now) × (to ≤ length other.now) }
    ensures { result ≡ (before and_then order (take (to - from) (drop from «data».now)) (take (to - from) (drop from other.now))) }
{
    if before.is_ne() {
        return before;
    }
    beside::compare_bytes(data, other, from, to)
}

// Kept: the order of two heaps' memory, not of two values, so it is no Ord.
// The data of two objects whose numbers are those of x: one trace of the first with the second's bytes beside it. Bytes before start are among those outside.
fn compare_data(
    table: &Table,
    x: Head,
    here: Slots,
    work: &mut [u64],
    data: &[u8],
    there: Met,
    other: &[u8],
) -> Ordering
    requires even { length «data».now ≡ length other.now }
    requires fact { shown_places (lent table.now) x.kind x.t x.start «data».now ≡ none → ⊥ }
    ensures value { result ≡ data_beside
        (place_in (slots_resolve here.entry) work.old (slots_resolve there.entry.slots) there.entry.turns.now)
        x.start «data».now other.now
        (shown_places (lent table.now) x.kind x.t x.start «data».now) }
    ensures work_unchanged { work.new ≡ work.old }
{
    let start = x.start as usize;
    let from = start.min(data.len());
    // Kept: what a trace finds beside goes to its two first marks, which it takes as a slice.
    let mut found = [0u8; 2];
    let r = traced::trace_beside(
        table, here, x.kind, x.t as u64, start, data, there, other, &mut found, work, 0,
    );
    let Some(done) = r else {
        return Ordering::Equal;
    };
    let hidden = beside::compare_bytes(data, other, 0, from);
    let before = beside::order_of(found[0]);
    let shown = then_bytes(
        before,
        &data[from..],
        &other[from..],
        done,
        data.len() - from,
    );
    let handles = beside::order_of(found[1]);
    hidden.then(shown).then(handles)
}

// The objects of two slots, i in the one heap and j in the other. `work` has the turns of the one and is left as it is.
// Kept: as for the data.
pub fn compare_slots(
    table: &Table,
    here: Objects,
    work: &mut [u64],
    i: usize,
    there: Objects,
    turns: &[u64],
    j: usize,
) -> Ordering
    requires in_use { (i < here.slots.slots) × (j < there.slots.slots) }
    requires fact { shown_by (lent table.now) here i ≡ none → ⊥ }
    ensures value { result ≡ sides_order (lent table.now) here.entry work.old there.entry turns.now i j }
    ensures work_unchanged { work.new ≡ work.old }
{
    let x = Head::of(here, i);
    let y = Head::of(there, j);
    let heads = x.cmp(&y);
    if heads.is_ne() {
        return heads;
    }
    let met = Met {
        slots: there.slots,
        turns,
    };
    compare_data(
        table,
        x,
        here.slots,
        work,
        here.data_of(i),
        met,
        there.data_of(j),
    )
}
