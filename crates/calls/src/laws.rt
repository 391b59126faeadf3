// The theorems on the calls, each asked for by the contract of a function:
// these functions do nothing else.
ghost use Rattle.calls.specs.Laws.{LookUpFindsTheNodes, NodeReads, PlacesAreTheParts, RowsAsWritten, RowsRise, RowsStaySound};
ghost use Rattle.calls.specs.Laws.{SealingGoesByMembers, SealingGoesByNumbers, SealingGoesByValue};
ghost use Rattle.calls.specs.Memory.{MemoryHolds, ValuedAgain};
ghost use Rattle.calls.specs.Outcomes.{ComparingHasOneOutcome, FirstMoveHasAnOutcome, LookingUpHasOneOutcome, PrintingHasOneOutcome, PuttingHasOneOutcome, ReadingHasOneOutcome};
ghost use Rattle.calls.specs.Outcomes.{SealingHasOneOutcome, TellingHasOneOutcome, TextsHaveOneVerdict, ValuingHasOneOutcome};

pub fn rows_stay_sound()
    ensures node { NodeReads }
    ensures rise { RowsRise }
    ensures written { RowsAsWritten }
    ensures sound { RowsStaySound }
{}

pub fn sealing_goes_by_value()
    ensures values { SealingGoesByValue }
    ensures numbers { SealingGoesByNumbers }
    ensures members { SealingGoesByMembers }
{}

pub fn calls_have_one_outcome()
    ensures sealing { SealingHasOneOutcome }
    ensures valuing { ValuingHasOneOutcome }
    ensures moving { FirstMoveHasAnOutcome }
    ensures texts { TextsHaveOneVerdict }
    ensures reading { ReadingHasOneOutcome }
    ensures looking { LookingUpHasOneOutcome }
    ensures printing { PrintingHasOneOutcome }
    ensures putting { PuttingHasOneOutcome }
    ensures comparing { ComparingHasOneOutcome }
    ensures telling { TellingHasOneOutcome }
{}

pub fn refusals_name_the_part()
    ensures { PlacesAreTheParts }
{}

pub fn look_up_finds_the_nodes()
    ensures { LookUpFindsTheNodes }
{}

pub fn memory_holds()
    ensures forms { MemoryHolds }
    ensures positions { ValuedAgain }
{}
