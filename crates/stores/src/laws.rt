// The theorem on what a store finds, asked for by the contract of a function that does nothing
// else.
ghost use Rattle.stores.specs.Rows.{LowestFinds};

pub fn lowest_finds()
    ensures { LowestFinds }
{}
