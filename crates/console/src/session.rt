// A whole session of the calculator, from a new dictionary to the end of the input.
ghost use Rattle.std.specs.Prelude.{[], IfOk};
ghost use Rattle.calls.specs.Rows.{Rows};
ghost use Rattle.console.specs.Serving.{Serves};

use crate::serving::serve;
use calculator::calculator::Calculator;
use std::alloc::Global;
use std::io;
use std::io::{BufReader, BufWriter, Read, Write};
use stores::store::Store;

// Answers each line of the input with a line, over a new dictionary in the store,
// and gives back what was written to.
pub fn answer_all<S: Store + Drop, R: Read + Drop, W: Write + Drop>(
    heap: Global,
    store: S,
    input: R,
    output: W,
) -> io::Result<W>
    ensures { IfOk result (λ written. (later : Rows)
        × Serves (S.Store.room store) [] (R.remaining input) (W.contents output)
        (W.contents written) later) }
{
    let mut calculator = Calculator::begin(heap, store)?;
    let mut reader = BufReader::new(heap, input)?;
    let mut writer = BufWriter::new(heap, output)?;
    serve(heap, &mut calculator, &mut reader, &mut writer)?;
    let (written, _) = writer.into_parts();
    Ok(written)
}
