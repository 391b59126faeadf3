// A dictionary over each store: a few forms sealed from the nodes before them,
// their outcomes and texts, and how they compare; and texts as long as may be.
#![tactic(auto)]

use demos::desk::Detail;
use demos::forms::seal_forms;
use demos::samples::{PAIRS, pair};
use demos::shown::{Demo, Shown, begin, over_both};
use demos::told::{compare, print_into};
use dictionary::dictionary::Dictionary;
use dictionary::fault::DictionaryFault;
use games::bounds::MOST_NODES;
use games::side::Side;
use nodesets::pair::Pair;
use stores::store::Store;

// How many heaps of nim are sealed, and how long the text of the last is:
// 3 marks more than twice those of all smaller ones with their commas.
const HEAPS: usize = 10;

const LONG_TEXT: usize = 65_609;

// The longest text that is printed.
const LONGEST_PRINTED: usize = 65_535;

// Stalks of edges of Left's and Right's, from the ground up.
// The text of what the first is worth has 65,535 bytes.
// The second is worth less than -1, by a text of 65,514 bytes,
// so the text of {0,±1|b} with it has 65,536.
const LONGEST_STALK: &str = "LRLRLRRLLRLLRRLLRRRLR";

const NEGATIVE_STALK: &str = "RRLRLLLRRLRLRLLRLRRLR";

struct Texts;

impl Demo for Texts {
    fn over<S: Shown>(&self, rt: &HostRuntime) -> anyhow::Result<()> {
        forms::<S>(rt)?;
        heaps::<S>(rt)?;
        longest_texts::<S>(rt)
    }
}

fn main(rt: HostRuntime) -> anyhow::Result<()> {
    over_both(&rt, &Texts)
}

// The sample forms, each with its text, and how they compare.
fn forms<S: Shown>(rt: &HostRuntime) -> anyhow::Result<()> {
    let Some(dictionary) = seal_forms::<S>(rt, Detail::OutcomeAndText)? else {
        return Ok(());
    };
    // the text of 1 has 6 bytes, and node 6 is unknown
    for (node, room) in [(1, 6), (1, 5), (6, 0)] {
        print_into(rt, &dictionary, node, room)?;
    }
    compare(rt, &dictionary, &PAIRS)
}

// Heaps of nim, from each of which both sides move to every smaller heap.
// There is room for every text, but that of the heap of 9 is too long to be printed.
fn heaps<S: Shown>(rt: &HostRuntime) -> anyhow::Result<()> {
    let Ok(store) = S::make(rt.alloc(), HEAPS) else {
        return Ok(());
    };
    let mut dictionary = Dictionary::begin(rt.alloc(), store)?;
    let mut smaller = Pair::default();
    for heap in 0..HEAPS {
        if let Ok(node) = dictionary.seal(&smaller) {
            smaller.insert(Side::Left, usize::from(node));
            smaller.insert(Side::Right, usize::from(node));
            match dictionary.print(node, &mut [0; LONG_TEXT]) {
                Ok(length) => println!(rt; "heap of {heap}: a text of {length} bytes")?,
                Err(fault) => println!(rt; "heap of {heap}: refused with {}", fault.number())?,
            }
        }
    }
    Ok(())
}

// The longest text that is printed, into a buffer that just holds it and one that does not,
// and a text of one byte more.
fn longest_texts<S: Shown>(rt: &HostRuntime) -> anyhow::Result<()> {
    let mut dictionary = begin::<S>(rt.alloc(), MOST_NODES)?;
    if let Ok(longest) = seal_stalk(&mut dictionary, LONGEST_STALK) {
        for room in [LONGEST_PRINTED, LONGEST_PRINTED - 1] {
            tell_length(rt, &dictionary, LONGEST_STALK, longest, room)?;
        }
    }
    if let Ok(b) = seal_stalk(&mut dictionary, NEGATIVE_STALK) {
        tell_length(rt, &dictionary, "b", b, LONG_TEXT)?;
        if let Ok(longer) = seal_above(&mut dictionary, b) {
            tell_length(rt, &dictionary, "{0,±1|b}", longer, LONG_TEXT)?;
        }
    }
    Ok(())
}

// What a stalk is worth: whoever cuts an edge leaves the stalk below it.
fn seal_stalk<S: Store>(
    dictionary: &mut Dictionary<S>,
    edges: &str,
) -> Result<u16, DictionaryFault> {
    let mut below = Pair::default();
    let mut stalk = dictionary.seal(&below)?;
    for edge in edges.bytes() {
        let cutter = if edge == b'L' {
            Side::Left
        } else {
            Side::Right
        };
        below.insert(cutter, usize::from(stalk));
        stalk = dictionary.seal(&below)?;
    }
    Ok(stalk)
}

// The form {0,±1|b} for a node b.
fn seal_above<S: Store>(dictionary: &mut Dictionary<S>, b: u16) -> Result<u16, DictionaryFault> {
    let zero = dictionary.seal(&pair(&[], &[]))?;
    let one = dictionary.seal(&pair(&[zero], &[]))?;
    let minus_one = dictionary.seal(&pair(&[], &[zero]))?;
    let switch = dictionary.seal(&pair(&[one], &[minus_one]))?;
    dictionary.seal(&pair(&[zero, switch], &[b]))
}

// Prints a node into a buffer of so many bytes, and tells how long its text is.
fn tell_length<S: Store>(
    rt: &HostRuntime,
    dictionary: &Dictionary<S>,
    name: &str,
    node: u16,
    room: usize,
) -> anyhow::Result<()> {
    let mut buffer = [0; LONG_TEXT];
    let room = room.min(LONG_TEXT);
    match dictionary.print(node, &mut buffer[..room]) {
        Ok(length) => println!(rt; "{name} into {room} bytes: wrote {length}")?,
        Err(fault) => println!(rt; "{name} into {room} bytes: refused with {}", fault.number())?,
    }
    Ok(())
}
