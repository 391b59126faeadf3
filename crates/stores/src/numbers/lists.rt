// How such a list is made, read and compared.
ghost use Rattle.std.specs.Prelude.{◌≡◌, ◌≤◌, ◌==◌, [], ◌∷◌, ◌++◌, length, take};
ghost use Rattle.std.specs.Option.{option_map};
ghost use Rattle.stores.specs.Rows.{short};
ghost use Rattle.stores.specs.Reading.{numbers_of};

use super::Numbers;

impl<const MOST: usize> Default for Numbers<MOST> {
    ghost is_default = { λ n. numbers_of n ≡ [] };

    // No numbers.
    fn default() -> Numbers<MOST> {
        Numbers {
            items: [0; MOST],
            count: 0,
        }
    }
}

impl<const MOST: usize> Numbers<MOST> {
    // The numbers of a list, unless there are more than `MOST`.
    pub fn new(numbers: &[u16]) -> Option<Numbers<MOST>>
        ensures { option_map numbers_of result ≡ short MOST numbers.now }
    {
        if numbers.len() > MOST {
            return None;
        }
        let mut items = [0; MOST];
        items[..numbers.len()].copy_from_slice(numbers);
        Some(Numbers {
            items,
            count: numbers.len(),
        })
    }

    // One number more, if there is room.
    pub fn push(&mut self, number: u16)
        ensures { numbers_of self.new ≡ take MOST (numbers_of self.old ++ number ∷ []) }
    {
        if self.count < MOST {
            self.items[self.count] = number;
            self.count += 1;
        }
    }

    // The numbers, in their order.
    pub fn list(&self) -> &[u16]
        ensures value { result.now ≡ numbers_of self.now }
        ensures few { length result.now ≤ MOST }
    {
        let all = &self.items[..];
        &all[..self.count]
    }
}
