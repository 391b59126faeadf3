// Which first moves win on a strip of Toads-and-Frogs, found by play alone:
// a question on each line of the input, its answer on a line of the output.
#![tactic(auto)]

use games::side::Side;
use rulesets::play::{outcome_of, winning_moves};
use rulesets::ruleset::Ruleset;
use toads::text::{Position, TextFault};

fn main(rt: HostRuntime) -> anyhow::Result<()> {
    for line in rt.lines(rt.alloc()) {
        answer(&rt, line?.as_str())?;
    }
    Ok(())
}

// A question is `L` or `R` for the side to move, a space, and the strip.
fn answer(rt: &HostRuntime, line: &str) -> anyhow::Result<()> {
    match line.split_once(' ') {
        Some(("L", strip)) => tell(rt, Side::Left, strip)?,
        Some(("R", strip)) => tell(rt, Side::Right, strip)?,
        Some((side, _)) => println!(rt; "no side: {side}")?,
        None => println!(rt; "no question: {line}")?,
    }
    Ok(())
}

fn tell(rt: &HostRuntime, side: Side, text: &str) -> anyhow::Result<()> {
    match Position::read(text.as_bytes()) {
        Ok(position) => tell_moves(rt, side, text, &position)?,
        Err(fault @ TextFault::Character(place)) => {
            println!(rt; "{text}: fault {}, no cell at {place}", fault.number())?;
        }
        Err(fault @ TextFault::Size) => {
            println!(rt; "{text}: fault {}, not 1 to 12 cells", fault.number())?;
        }
    }
    Ok(())
}

// The line is printed once all of it is known.
fn tell_moves(rt: &HostRuntime, side: Side, text: &str, position: &Position) -> anyhow::Result<()> {
    let Position { strip, code } = *position;
    let outcome = outcome_of(&strip, code);
    let winning = winning_moves(rt.alloc(), &strip, side, code)?;
    print!(rt; "{text}: outcome {outcome}; {side:?} moves first, winning with")?;
    if winning.is_empty() {
        print!(rt; " none")?;
    }
    for index in &winning {
        print!(rt; " {index}")?;
    }
    println!(rt; " of {} moves", strip.count(side, code))?;
    Ok(())
}
