// Where a node belongs in the listing.
ghost use Rattle.std.specs.Prelude.{◌≡◌, ◌<◌, ◌&&◌, true, length, vec_len, nat_lt, slice_index_or};
ghost use Rattle.std.specs.Ordering.{is_lt};
ghost use Rattle.nodesets.specs.Pairs.{by};
ghost use Rattle.sealing.specs.Forms.{none};
ghost use Rattle.sealing.specs.Walks.{Complete, Placed, Rises, all_below, pair_order};
ghost use Rattle.sealing.specs.Views.{links};

use crate::nodes::Nodes;
use crate::order::order_pairs;
use nodesets::pair::Pair;

impl Nodes {
    // Whether the node comes before these options in the listing.
    fn is_before(&self, listing: &[u16], node: u16, options: &Pair) -> bool
        ensures { result ≡ (nat_lt node (length (links self.now))
            && is_lt (pair_order (slice_index_or (links self.now) node none) (by options.now)
            listing.now)) }
    {
        let node = usize::from(node);
        node < self.rows.len() && order_pairs(listing, &self.rows[node].options, options).is_lt()
    }

    // The place of the node k in the listing of the nodes below it.
    pub fn place(&self, listing: &[u16], k: usize) -> usize
        requires there { k < vec_len self.now.rows }
        requires below { all_below k listing.now ≡ true }
        requires complete { Complete k listing.now }
        requires rises { Rises (links self.now) listing.now }
        ensures { Placed (links self.now) listing.now k result }
    {
        let options = &self.rows[k].options;
        listing.partition_point(|node| self.is_before(listing, *node, options))
    }
}
