// What is told of the nodes of a dictionary.
ghost use Rattle.std.specs.Prelude.{[], length, MatchResult};
ghost use Rattle.calls.specs.Answers.{refused, told};
ghost use Rattle.calls.specs.Asking.{Prints};
ghost use Rattle.dictionary.specs.Faults.{print_fault_number};

use dictionary::dictionary::Dictionary;
use dictionary::fault::{DictionaryFault, PrintFault};
use stores::store::Store;

// The size of the buffer that nodes are printed into to be shown.
pub const BUFFER: usize = 16;

// The outcome of a node.
pub fn tell<S: Store>(
    rt: &HostRuntime,
    dictionary: &Dictionary<S>,
    name: &str,
    node: u16,
) -> anyhow::Result<()> {
    match dictionary.outcome(node) {
        Ok(outcome) => println!(rt; "{name}: node {node}, outcome {outcome}")?,
        Err(fault) => println!(rt; "{name}: node {node}, refused with {}", fault.number())?,
    }
    Ok(())
}

// What a seal answered: the outcome of its node, or the number of its refusal.
pub fn tell_sealed<S: Store>(
    rt: &HostRuntime,
    dictionary: &Dictionary<S>,
    name: &str,
    sealed: Result<u16, DictionaryFault>,
) -> anyhow::Result<()> {
    match sealed {
        Ok(node) => tell(rt, dictionary, name, node)?,
        Err(fault) => println!(rt; "{name}: refused with {}", fault.number())?,
    }
    Ok(())
}

// How pairs of nodes compare.
pub fn compare<S: Store>(
    rt: &HostRuntime,
    dictionary: &Dictionary<S>,
    pairs: &[(u16, u16)],
) -> anyhow::Result<()> {
    for &(a, b) in pairs {
        match dictionary.compare(a, b) {
            Ok(comparison) => println!(rt; "{a} {comparison} {b}")?,
            Err(fault) => println!(rt; "{a} and {b}: refused with {}", fault.number())?,
        }
    }
    Ok(())
}

// Prints a node into the first bytes of a buffer, as many as there is room for,
// and shows the whole buffer.
pub fn print_into<S: Store>(
    rt: &HostRuntime,
    dictionary: &Dictionary<S>,
    node: u16,
    room: usize,
) -> anyhow::Result<()> {
    let mut buffer = [b'.'; BUFFER];
    match dictionary.print(node, &mut buffer[..room.min(BUFFER)]) {
        Ok(length) => println!(rt; "  node {node} into {room} bytes: wrote {length}")?,
        Err(fault) => {
            println!(rt;
                "  node {node} into {room} bytes: refused with {}",
                fault.number()
            )?
        }
    }
    println!(rt; "  {}", std::str::from_utf8(&buffer)?)?;
    Ok(())
}

// The text of a node, which is written at the front of a buffer.
pub fn text<'a, S: Store>(
    dictionary: &Dictionary<S>,
    node: u16,
    buffer: &'a mut [u8],
) -> Result<&'a [u8], PrintFault>
    ensures { MatchResult result (λ text. Prints dictionary.now.rows node (length buffer.old)
        (told (length text.now)) text.now)
        (λ fault. Prints dictionary.now.rows node (length buffer.old)
        (refused (print_fault_number fault)) []) }
{
    let end = dictionary.print(node, buffer)?;
    Ok(&buffer[..end])
}
