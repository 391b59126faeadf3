// The options of an open bracket as they are written.
ghost use Rattle.std.proofs.Common.{rules};
ghost use Rattle.reading.specs.Spelt.{spelt};

use crate::options::Options;
use games::bounds::MOST_OPTIONS;
use games::side::Side;
use stores::row::Sides;

// How many numbers of a side are kept: one more than a row can have,
// so that a longer list is found in no row.
const KEPT: usize = MOST_OPTIONS + 1;

// The numbers of the Left options and of the Right options, in their order.
pub(crate) type Spelling = Sides<KEPT>;

impl Options for Spelling {
    ghost keeps = { λ s l. spelt s l };

    ghost blank = { Prim.search rules };

    fn put(&mut self, side: Side, node: u16) {
        self.push(side, node);
    }
}
