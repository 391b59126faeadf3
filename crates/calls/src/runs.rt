// The theorems on all lists of calls, each asked for by the contract of a function:
// these functions do nothing else.
ghost use Rattle.calls.specs.RunLaws.{EntriesAreCanonical, NumbersTellGames, PrintedReadsBack, RowsAreSound, TextsAreCanonical, TextsTellGames, ToldNumbersAreEntries, ValuedStays};
ghost use Rattle.calls.specs.WorkedRun.{ShorterRun, WorkedRun};

pub fn numbers_tell_games()
    ensures { NumbersTellGames }
{}

pub fn texts_tell_games()
    ensures tell { TextsTellGames }
    ensures canonical { TextsAreCanonical }
{}

pub fn printed_texts_read_back()
    ensures { PrintedReadsBack }
{}

pub fn rows_are_kept()
    ensures sound { RowsAreSound }
    ensures canonical { EntriesAreCanonical }
    ensures entered { ToldNumbersAreEntries }
    ensures valued { ValuedStays }
{}

pub fn a_run_is_worked()
    ensures worked { WorkedRun }
    ensures shorter { ShorterRun }
{}
