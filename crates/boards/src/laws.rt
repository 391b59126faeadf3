// The theorems on written boards, each asked for by the contract of a function
// that does nothing else.
ghost use Rattle.boards.specs.Laws.{CellsLegal, CodesBelow, RowsLegal};
ghost use Rattle.boards.specs.Worked.{WorkedBoards};

pub fn written_codes_are_in_order()
    ensures below { CodesBelow }
    ensures rows { RowsLegal }
    ensures cells { CellsLegal }
{}

pub fn worked_boards_stand()
    ensures { WorkedBoards }
{}
