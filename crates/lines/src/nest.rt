// The text of a form as a reader of a line walks along it.
ghost use Rattle.lines.specs.Nests.{stack};
ghost use Rattle.lines.specs.WalksLemmas.{nest_ongoing};

use crate::walk::Walk;
use calls::fault::TextFault;
use calls::nest::Nest;
use std::ops::ControlFlow;

impl Walk for Nest {
    ghost stack = { stack };

    ghost last = { 125 };

    ghost ongoing = { nest_ongoing };

    fn step(&mut self, byte: u8, place: usize) -> Result<ControlFlow<()>, TextFault> {
        self.take(byte, place)
    }
}
