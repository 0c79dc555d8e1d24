// For C: the calls of collect_door.
ghost use Rattle.std.specs.Prelude.{◌≡◌};
ghost use Rattle.heap.specs.Lent.{lent};
ghost use Rattle.door.specs.HeapCalls.{outcome};
ghost use Rattle.collect_door.specs.Calls.{collect_call};
ghost use Rattle.collect_door.specs.Demand.{RightlyCollected};

use door::Done;
use heap::Heap;

#[unsafe(no_mangle)]
pub extern "C" fn yexwalu_collect(
    types: &[u64],
    fields: &[u32],
    consts: &[u64],
    bytes: &[u8],
    heap: Heap,
    narrow: &mut [u32],
    wide: &mut [u64],
    pool: &mut [u8],
    roots: &[u64],
    pins: &[u32],
    marks: &mut [u8],
    work: &mut [u64],
) -> Done
    ensures work_after { outcome result.answer (lent result.heap narrow.new wide.new pool.new) marks.new work.new
        ≡ collect_call
        (record { types = types.now; fields = fields.now; consts = consts.now; bytes = bytes.now; roots = roots.now; pins = pins.now })
        marks.old work.old (lent heap narrow.old wide.old pool.old) }
    ensures rightly_collected { RightlyCollected
        (record { types = types.now; fields = fields.now; consts = consts.now; bytes = bytes.now; roots = roots.now; pins = pins.now })
        marks.old work.old (lent heap narrow.old wide.old pool.old)
        (outcome result.answer (lent result.heap narrow.new wide.new pool.new) marks.new work.new) }
{
    collect_door::yexwalu_collect(
        types, fields, consts, bytes, heap, narrow, wide, pool, roots, pins, marks, work,
    )
}
