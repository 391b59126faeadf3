// The theorems on games, each asked for by the contract of a function:
// these functions do nothing else.
ghost use Rattle.games.specs.Laws.{CanonicalDecided, CanonicalFormIsOne, DominatedGoes, EqualOptions, ListingIsStrict, ReversibleGoes, TextTells};

pub fn value_is_kept()
    ensures equal { EqualOptions }
    ensures dominated { DominatedGoes }
    ensures reversible { ReversibleGoes }
{}

pub fn canonical_form_is_one()
    ensures one { CanonicalFormIsOne }
    ensures decided { CanonicalDecided }
    ensures listing { ListingIsStrict }
{}

pub fn text_tells()
    ensures { TextTells }
{}
