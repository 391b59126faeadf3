// Printing: the text of a node, read from the rows of the store.
ghost use Rattle.std.specs.Prelude.{◌≡◌, ◌+◌, ◌-◌, ◌≤◌, length};
ghost use Rattle.std.specs.Option.{SomeIff};
ghost use Rattle.games.specs.Text.{bytes};
ghost use Rattle.calls.specs.Asking.{text_length};
ghost use Rattle.calls.specs.Rows.{node as form_of};
ghost use Rattle.dictionary.specs.Faults.{print_answer};
ghost use Rattle.dictionary.specs.Printing.{PrintSteps, Printed, options_text};
ghost use Rattle.dictionary.specs.Writing.{Wrote};

use crate::dictionary::Dictionary;
use crate::fault::PrintFault;
use crate::writer::Writer;
use games::side::Side;
use stores::options::options_of;
use stores::store::Store;

// The longest text that is printed, in bytes.
const LONGEST: usize = 65_535;

// What is left of a budget of bytes behind the text of a node, if it goes so far.
#[cycle(spending)]
fn spend<S: Store>(store: &S, node: u16, budget: usize) -> Option<usize>
    ensures { SomeIff result (text_length (S.Store.rows store.now) node ≤ budget)
        (budget - text_length (S.Store.rows store.now) node) }
{
    let marks = budget.checked_sub(3)?;
    let left = spend_options(store, Side::Left, node, marks)?;
    spend_options(store, Side::Right, node, left)
}

// The same behind the options of a side, which commas part.
#[cycle(spending)]
fn spend_options<S: Store>(store: &S, side: Side, node: u16, budget: usize) -> Option<usize>
    ensures { SomeIff result (length (options_text (S.Store.rows store.now) side node) ≤ budget)
        (budget - length (options_text (S.Store.rows store.now) side node)) }
{
    let mut left = budget;
    for (index, option) in options_of(store, side, node).enumerate() {
        // a comma stands before each option but the first
        let behind = left.checked_sub(index.min(1))?;
        left = spend(store, option, behind)?;
    }
    Some(left)
}

// Writes the text of a node.
#[cycle(writing)]
fn write<S: Store>(store: &S, node: u16, writer: &mut Writer)
    requires { writer.old.place + text_length (S.Store.rows store.now) node
        ≤ length writer.old.out.now }
    ensures { Wrote writer.old writer.new (bytes (form_of (S.Store.rows store.now) node)) }
{
    writer.put(b'{');
    write_options(store, Side::Left, node, writer);
    writer.put(b'|');
    write_options(store, Side::Right, node, writer);
    writer.put(b'}');
}

// The same for the options of a side, which commas part. It stands within `write`, so that a node
// costs one call, and a side without options none.
#[cycle(writing)]
#[inline(always)]
fn write_options<S: Store>(store: &S, side: Side, node: u16, writer: &mut Writer)
    requires { writer.old.place + length (options_text (S.Store.rows store.now) side node)
        ≤ length writer.old.out.now }
    ensures { Wrote writer.old writer.new (options_text (S.Store.rows store.now) side node) }
{
    for (index, option) in options_of(store, side, node).enumerate() {
        if index > 0 {
            writer.put(b',');
        }
        write(store, option, writer);
    }
}

impl<S: Store> Dictionary<S> {
    // Writes the text of a node at the front of a buffer, which stays as it was behind it,
    // and answers how long the text is.
    pub fn print(&self, node: u16, out: &mut [u8]) -> Result<usize, PrintFault>
        ensures printed { Printed self.now.rows node out.old (print_answer result) out.new }
        ensures step { PrintSteps self.now.rows node (print_answer result) out.new }
    {
        if usize::from(node) >= self.store.count() {
            return Err(PrintFault::Unknown);
        }
        spend(&self.store, node, out.len().min(LONGEST)).ok_or(PrintFault::Long)?;
        let mut writer = Writer { out, place: 0 };
        write(&self.store, node, &mut writer);
        Ok(writer.place)
    }
}
