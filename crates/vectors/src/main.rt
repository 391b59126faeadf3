// Sessions of the calculator over each store, against answers that another program worked out,
// or that were worked out by hand; and the shortest buffer that an answer is written into.
#![tactic(auto)]

use calculator::bounds::LONGEST_ANSWER;
use calculator::calculator::Calculator;
use console::session::answer_all;
use demos::shown::{Demo, Shown, over_both};
use games::bounds::MOST_NODES;
use std::fs;

// The sessions: NAME.in has the lines, and NAME.out the answers. Those of `bounds` (each size at its
// bound and beyond) and of `full` (a dictionary filled to its last row, and what is refused and still
// answered then) were worked out by hand, those of `answers` by a program that knows the rules alone:
// answers of 4,095 and 4,096 bytes and what would have 4,097, lines of 1,000 bytes and of none,
// 16 and 17 options, and 96 and 97 brackets.
const SESSIONS: [&'static str; 9] = [
    "worked", "valid", "mixed", "faults", "edge", "big", "bounds", "full", "answers",
];

#[derive(Drop)]
struct Session {
    name: &'static str,
    lines: Vec<u8>,
    wanted: Vec<u8>,
}

fn read_session(rt: &HostRuntime, name: &'static str) -> anyhow::Result<Session> {
    let heap = rt.alloc();
    let lines = fs::read(rt, format!(in heap; "{name}.in")?)?;
    let wanted = fs::read(rt, format!(in heap; "{name}.out")?)?;
    Ok(Session {
        name,
        lines,
        wanted,
    })
}

// Tells whether the answers are those that are wanted, byte for byte.
impl Demo for Session {
    fn over<S: Shown>(&self, rt: &HostRuntime) -> anyhow::Result<()> {
        let heap = rt.alloc();
        let store = S::make(heap, MOST_NODES)?;
        let given = answer_all(heap, store, self.lines.as_slice(), Vec::new(heap))?;
        let lines = self.wanted.iter().filter(|b| **b == b'\n').count();
        let verdict = if self.wanted == given {
            "right"
        } else {
            "not all right"
        };
        println!(rt;
            "{} over {}: {lines} answers, {verdict}",
            self.name,
            S::NAME
        )?;
        Ok(())
    }
}

// What is asked into a buffer of how many bytes: one too few,
// when the line adds nothing to the dictionary, and just enough.
const ASKED: [(&'static str, usize); 2] = [
    ("(value (form {{|}|}))", 4095),
    ("(value (form {|{|}}))", 4096),
];

// How much of a buffer is shown.
const SHOWN: usize = 16;

struct Buffers;

impl Demo for Buffers {
    fn over<S: Shown>(&self, rt: &HostRuntime) -> anyhow::Result<()> {
        let heap = rt.alloc();
        let mut calculator = Calculator::begin(heap, S::make(heap, MOST_NODES)?)?;
        println!(rt; "over {}", S::NAME)?;
        for (line, room) in ASKED {
            let mut buffer = [b'.'; LONGEST_ANSWER];
            print!(rt; "{line} into {room} bytes: ")?;
            match calculator.answer(line.as_bytes(), &mut buffer[..room.min(LONGEST_ANSWER)]) {
                Ok(length) => println!(rt; "wrote {length}")?,
                Err(fault) => println!(rt; "refused with {}", fault.number())?,
            }
            if let Some(front) = buffer.first_chunk::<SHOWN>() {
                println!(rt; "  {}", std::str::from_utf8(front)?)?;
            }
        }
        Ok(())
    }
}

fn main(rt: HostRuntime) -> anyhow::Result<()> {
    for name in SESSIONS {
        over_both(&rt, &read_session(&rt, name)?)?;
    }
    over_both(&rt, &Buffers)
}
