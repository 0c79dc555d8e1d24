// A run of the program `page` and the memory that it owns.
ghost use Rattle.heap.specs.Lent.{lent};
ghost use Rattle.page_runs.specs.Steps.{Good};

use crate::Run;

// A run, the memory that its heap lies in, and the scratch of its calls.
#[derive(Drop)]
pub struct Running {
    pub run: Run,
    pub narrow: [u32; 384],
    pub wide: [u64; 256],
    pub pool: [u8; 4096],
    pub room: [u8; 4096],
    pub marks: [u8; 64],
    pub work: [u64; 64],
    pub ghost good: { Good run (lent run.heap narrow wide pool) },
}
