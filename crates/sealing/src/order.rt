// The listing: how sets of nodes compare by it, and the nodes of a set in its order.
ghost use Rattle.std.specs.Prelude.{◌≡◌, ◌≤◌, not, ◌++◌, length, take, drop, filter};
ghost use Rattle.std.specs.Option.{SomeIff, option_map};
ghost use Rattle.std.specs.declared.cmp.Ordering.TheVariants.{Equal};
ghost use Rattle.nodesets.specs.Pairs.{by};
ghost use Rattle.nodesets.specs.Sets.{has};
ghost use Rattle.sealing.specs.Walks.{any_of, walk_step, walk_order, pair_order};

use arrayvec::ArrayVec;
use nodesets::nodeset::NodeSet;
use nodesets::pair::Pair;
use std::cmp::Ordering;

// Whether the set has a number of the list.
fn has_any(listing: &[u16], set: &NodeSet) -> bool
    ensures { result ≡ any_of (has set.now) listing.now }
{
    listing.iter().any(|k| set.contains(usize::from(*k)))
}

// Where just one of two sets has a number: that set comes first, unless the other has none later.
fn parted(in_a: bool, a_later: bool, b_later: bool) -> Ordering
    ensures { result ≡ walk_step in_a (not in_a) a_later b_later Equal }
{
    match (in_a, a_later, b_later) {
        (true, _, true) => Ordering::Less,
        (true, _, false) => Ordering::Greater,
        (false, true, _) => Ordering::Greater,
        (false, false, _) => Ordering::Less,
    }
}

// How two sets compare by their members in the list's order.
fn order_sets(listing: &[u16], a: &NodeSet, b: &NodeSet) -> Ordering
    ensures { result ≡ walk_order (has a.now) (has b.now) listing.now }
{
    let mut rest = listing;
    while let Some((k, later)) = rest.split_first() {
        let node = usize::from(*k);
        let in_a = a.contains(node);
        let in_b = b.contains(node);
        if in_a != in_b {
            return parted(in_a, has_any(later, a), has_any(later, b));
        }
        rest = later;
    }
    Ordering::Equal
}

// How two games compare by their options.
pub fn order_pairs(listing: &[u16], a: &Pair, b: &Pair) -> Ordering
    ensures { result ≡ pair_order (by a.now) (by b.now) listing.now }
{
    order_sets(listing, &a.left, &b.left).then_with(|| order_sets(listing, &a.right, &b.right))
}

// How many nodes of the listing are in the set.
pub fn count_listed(listing: &[u16], set: &NodeSet) -> usize
    ensures { result ≡ length (filter (has set.now) listing.now) }
{
    listing
        .iter()
        .filter(|k| set.contains(usize::from(**k)))
        .count()
}

// The nodes of the listing that are in the set, unless there are more than `MOST`.
pub fn few_listed<const MOST: usize>(listing: &[u16], set: &NodeSet) -> Option<ArrayVec<u16, MOST>>
    ensures { SomeIff (option_map (λ nodes. nodes.items) result)
        (length (filter (has set.now) listing.now) ≤ MOST) (filter (has set.now) listing.now) }
{
    let mut nodes = ArrayVec::new();
    for node in listing {
        if set.contains(usize::from(*node)) {
            nodes.try_push(*node).ok()?;
        }
    }
    Some(nodes)
}

// Writes the nodes of the listing that are in the set, as many as fit, to the front of the buffer;
// answers how many there are.
pub fn write_listed(listing: &[u16], set: &NodeSet, buffer: &mut [u16]) -> usize
    ensures number { result ≡ length (filter (has set.now) listing.now) }
    ensures written { buffer.new ≡ take (length buffer.old) (filter (has set.now) listing.now)
        ++ drop result buffer.old }
{
    let mut n: usize = 0;
    for node in listing {
        if set.contains(usize::from(*node)) {
            if n < buffer.len() {
                buffer[n] = *node;
            }
            n += 1;
        }
    }
    n
}
