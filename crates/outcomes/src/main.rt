// Positions of unlike boards, their negatives and sums of them:
// what each ruleset tells, and the outcome by play.
#![tactic(auto)]

use demos::samples::stalk;
use domineering::board::Board;
use games::side::Side;
use hackenbush::edge::Colour;
use rulesets::play::outcome_of;
use rulesets::ruleset::Ruleset;
use sums::minus::Minus;
use sums::sum::Sum;
use toads::strip::Strip;

fn main(rt: HostRuntime) -> anyhow::Result<()> {
    boards(&rt)?;
    combined(&rt)?;
    refused(&rt)
}

// One board of each kind.
fn boards(rt: &HostRuntime) -> anyhow::Result<()> {
    let square = Board::new(2, 2).unwrap();
    tell(rt, "domineering ../..", &square, 0)?;
    tell(rt, "domineering #./..", &square, 1)?;
    tell(rt, "domineering, a code at the limit", &square, 16)?;
    let strip = Strip::new(3).unwrap();
    tell(rt, "toads T.F", &strip, 33)?;
    tell(rt, "toads, a digit 3", &strip, 3)?;
    let stalk = stalk(Colour::Right);
    tell(rt, "hackenbush 0-1L,1-2R", &stalk, 3)?;
    tell(rt, "hackenbush 0-1L,1-2R, the red edge floating", &stalk, 2)
}

// A negative, a sum of unlike boards, and a sum that holds a sum.
fn combined(rt: &HostRuntime) -> anyhow::Result<()> {
    let half = stalk(Colour::Right);
    let minus = Minus::new(half);
    tell(rt, "minus of hackenbush 0-1L,1-2R", &minus, 3)?;
    if let Ok(zero) = Sum::new(half, minus) {
        tell(rt, "hackenbush 0-1L,1-2R and its minus", &zero, 15)?;
    }
    if let Ok(unlike) = Sum::new(stalk(Colour::Both), Strip::new(3).unwrap()) {
        tell(rt, "hackenbush 0-1L,1-2B and toads T.F", &unlike, 225)?;
        if let Ok(nested) = Sum::new(minus, unlike) {
            tell(rt, "the minus and that sum", &nested, 993)?;
        }
    }
    Ok(())
}

// What is not made.
fn refused(rt: &HostRuntime) -> anyhow::Result<()> {
    if let Err(fault) = Strip::new(13) {
        println!(rt; "a strip of 13 cells: refused with {}", fault.number())?;
    }
    if let Err(fault) = Board::new(1, 31) {
        println!(rt; "a board of 31 cells: refused with {}", fault.number())?;
    }
    let board = Board::new(5, 6).unwrap();
    if let Ok(largest) = Sum::new(board, board) {
        println!(rt;
            "a sum of two boards of 30 cells: limit {}",
            largest.limit()
        )?;
        if let Err(fault) = Sum::new(largest, board) {
            println!(rt; "a sum of three: refused with {}", fault.number())?;
        }
    }
    Ok(())
}

fn tell<R: Ruleset>(rt: &HostRuntime, name: &str, board: &R, code: u64) -> anyhow::Result<()> {
    if !board.is_legal(code) {
        println!(rt; "{name}: not legal below {}", board.limit())?;
        return Ok(());
    }
    let rank = board.rank(code);
    let left = board.count(Side::Left, code);
    let right = board.count(Side::Right, code);
    let outcome = outcome_of(board, code);
    println!(rt; "{name}: rank {rank}, {left} moves of Left, {right} of Right, outcome {outcome}")?;
    Ok(())
}
