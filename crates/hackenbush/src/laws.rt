// The theorems on what is joined to the ground, each asked for by the contract of a function
// that does nothing else.
ghost use Rattle.hackenbush.specs.Laws.{FallKeepsJoined, LegalWhenJoined, ReachIsJoined};

pub fn reach_is_joined()
    ensures { ReachIsJoined }
{}

pub fn what_stands_is_joined()
    ensures falls { FallKeepsJoined }
    ensures legal { LegalWhenJoined }
{}
