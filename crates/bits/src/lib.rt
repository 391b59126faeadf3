// The bits of a 64-bit word: how many there are, where they stand, and whether one is set.
#![tactic(auto)]

ghost use Rattle.std.specs.Prelude.{◌≡◌, length};
ghost use Rattle.std.specs.List.{slice_get};
ghost use Rattle.bits.specs.Bits.{bit, places};

// How many bits are set.
pub fn count_bits(word: u64) -> usize
    ensures { result ≡ length (places 64 (bit word)) }
{
    word.count_ones() as usize
}

// The place of the set bit with this index, counted from the lowest,
// or `None` when there are fewer.
pub fn nth_bit(word: u64, index: usize) -> Option<u32>
    ensures { result ≡ slice_get (places 64 (bit word)) index }
{
    let mut rest = word;
    for _ in 0..index {
        // clears the lowest set bit, where there is one
        rest &= rest.checked_sub(1)?;
    }
    (rest != 0).then_some(rest.trailing_zeros())
}

// Whether the bit at the place is set; from place 64 on there is none.
pub fn has_bit(word: u64, place: u32) -> bool
    ensures { result ≡ bit word place }
{
    place < 64 && (word >> place) & 1 == 1
}
