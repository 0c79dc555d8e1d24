// The great theorems on the public calls: each statement has its name in specs/, its proof in proofs/.
#![tactic(auto)]

ghost use Rattle.table_reader.specs.Reading.{lists};
ghost use Rattle.theorems.specs.KnownPages.{KnownWritten, KnownMeasured};
ghost use Rattle.theorems.specs.TableText.{TableWords};

pub use widths::words;

fn nothing() {}

// Does nothing. Its contract says what the theorem on a table's text asks for of lent lists, and that whoever lends them has it.
pub fn table_words(types: &[u64], fields: &[u32], consts: &[u64], bytes: &[u8], names: &[u8])
    ensures { TableWords (lists types.now fields.now consts.now bytes.now names.now) }
{
    nothing();
}

// Does nothing. Its contract says that the calls on the page of a heap that is known to be well formed answer and write what the public calls do.
pub fn known_pages()
    ensures known_written { KnownWritten }
    ensures known_measured { KnownMeasured }
{
    nothing();
}
