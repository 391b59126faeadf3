// Eight worked positions, shown together from the definitions.
#![tactic(auto)]

ghost use Rattle.examples.specs.Worked.{WorkedPositions};

pub fn worked_positions_stand()
    ensures { WorkedPositions }
{}
