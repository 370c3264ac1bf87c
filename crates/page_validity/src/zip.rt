//! Values beside the bits that say which are there.
ghost use Rattle.std.specs.Prelude.{◌≡◌};
ghost use Rattle.page_validity.specs.Validity.{GivesPair};

/// For each bit of `validity` one item: where it is set the next of the values, and else none. A value that is missing is none.
#[derive(Debug, Drop)]
pub struct Zip<V, I> {
    pub validity: V,
    pub values: I,
}

impl<V, I> Zip<V, I> {
    pub fn new(validity: V, values: I) -> Self
        ensures validity { result.validity ≡ validity }
        ensures values { result.values ≡ values }
    {
        Zip { validity, values }
    }
}

impl<V: Iterator<Item = bool> + Drop, I: Iterator + Drop> Iterator for Zip<V, I> {
    type Item = Option<I::Item>;

    // the values may be asked for also where they are at their end
    ghost can_next = { λ s. V.can_next s.validity × ((values : I) → I.can_next values) };

    ghost next_gives = { λ s r t. GivesPair V.next_gives I.next_gives (s.validity, s.values) r (t.validity, t.values) };

    ghost remaining = { λ s. V.remaining s.validity };

    fn next(&mut self) -> Option<Option<I::Item>> {
        match self.validity.next() {
            None => None,
            Some(true) => Some(self.values.next()),
            Some(false) => Some(None),
        }
    }
}
