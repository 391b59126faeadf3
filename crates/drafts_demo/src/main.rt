// Drafts over each store: forms put together number by number, sealed or abandoned.
// What was sealed is printed and read back, and a position whose game was drafted is valued.
#![tactic(auto)]

use demos::shown::{Demo, Shown, begin_under, over_both};
use demos::told::text;
use dictionary::dictionary::Dictionary;
use domineering::board::Board;
use drafts::draft::Draft;
use drafts::seal::seal;
use drafts::slip::Slip;
use games::side::Side;
use memory::memory::Memory;
use reading::read::read;
use stores::store::Store;
use valuing::value::value_with;

// How many rows the stores have room for: one fewer than would be wanted.
const ROWS: usize = 4;

// What is put on the Left and on the Right, by the numbers of nodes:
// 0 is 0, 1 is 1, 2 is 2 and 3 is *.
const FORMS: [(&str, &[u16], &[u16]); 10] = [
    ("{|}", &[], &[]),
    ("{0|}", &[0], &[]),
    ("{0,1|}", &[0, 1], &[]),
    ("{0|0}", &[0], &[0]),
    ("{*|*}", &[3, 384], &[3]),
    ("{0|2}", &[0], &[2]),
    ("{0,*|}", &[3, 0, 0], &[]),
    ("{|0}", &[], &[0]),
    ("{9|}", &[9], &[]),
    ("{|} again", &[], &[]),
];

struct Drafts;

impl Demo for Drafts {
    fn over<S: Shown>(&self, rt: &HostRuntime) -> anyhow::Result<()> {
        let Some(mut dictionary) = begin_under::<S>(rt, ROWS, "over ", " of 4 rows")? else {
            return Ok(());
        };
        let mut draft = Draft::new();
        for (name, left, right) in FORMS {
            abandoned(rt, &mut draft, left)?;
            sealed(rt, &mut dictionary, &mut draft, name, left, right)?;
        }
        corner(rt, &mut dictionary)
    }
}

fn main(rt: HostRuntime) -> anyhow::Result<()> {
    over_both(&rt, &Drafts)
}

// Three cells in a corner: either side has one move, which leaves no other, so its game is {0|0}.
fn corner<S: Store>(rt: &HostRuntime, dictionary: &mut Dictionary<S>) -> anyhow::Result<()> {
    let board = Board::new(2, 2).unwrap();
    match value_with(dictionary, &mut Memory::new(rt.alloc()), &board, 1) {
        Ok(node) => print(rt, dictionary, "#./..", node)?,
        Err(fault) => println!(rt; "#./..: refused with {}", fault.number())?,
    }
    Ok(())
}

// Opens the draft, puts the numbers, and abandons it: nothing is left of them.
fn abandoned(rt: &HostRuntime, draft: &mut Draft, left: &[u16]) -> anyhow::Result<()> {
    let slip = draft.open();
    let shown = put_all(rt, draft, &slip, Side::Right, left);
    draft.abandon(slip);
    shown
}

// Opens the draft, puts the numbers, and seals it.
fn sealed<S: Store>(
    rt: &HostRuntime,
    dictionary: &mut Dictionary<S>,
    draft: &mut Draft,
    name: &str,
    left: &[u16],
    right: &[u16],
) -> anyhow::Result<()> {
    let slip = draft.open();
    let lefts = put_all(rt, draft, &slip, Side::Left, left);
    let rights = put_all(rt, draft, &slip, Side::Right, right);
    let answer = seal(dictionary, draft, slip);
    lefts?;
    rights?;
    match answer {
        Ok(node) => print(rt, dictionary, name, node)?,
        Err(fault) => println!(rt; "{name}: refused with {}", fault.number())?,
    }
    Ok(())
}

// Puts the numbers on a side, and tells which are refused.
fn put_all(
    rt: &HostRuntime,
    draft: &mut Draft,
    slip: &Slip,
    side: Side,
    numbers: &[u16],
) -> anyhow::Result<()> {
    for number in numbers {
        if let Err(fault) = draft.put(slip, side, *number) {
            println!(rt; "{number} is refused with {}", fault.number())?;
        }
    }
    Ok(())
}

// Prints a node, and reads its text back.
fn print<S: Store>(
    rt: &HostRuntime,
    dictionary: &mut Dictionary<S>,
    name: &str,
    node: u16,
) -> anyhow::Result<()> {
    match text(dictionary, node, &mut [0; 16]) {
        Ok(text) => {
            println!(rt; "{name}: node {node}, {}", std::str::from_utf8(text)?)?;
            if let Ok(again) = read(dictionary, text) {
                println!(rt; "  which is read as node {again}")?;
            }
        }
        Err(fault) => println!(rt; "{name}: node {node}, refused with {}", fault.number())?,
    }
    Ok(())
}
