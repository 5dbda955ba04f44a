// The pairs of a reason that is looked for.
ghost use Rattle.std.specs.Prelude.{◌≡◌, ◌≤◌, ◌<◌, true, false, [], ◌∷◌, ◌++◌, length};

use rows::Pair;
use std::marker::Model;

// The greatest number of pairs of a reason.
const PAIRS: usize = 64;

// At most 64 pairs, in the value itself: most reasons that are looked for aren't found.
#[derive(Drop)]
pub(crate) struct PairList {
    pairs: [Pair; PAIRS],
    count: usize,
}

impl Model for PairList {
    ghost use Rattle.std.specs.Prelude.{◌≡◌, ◌≤◌, List, take, length};
    ghost use Rattle.rows.specs.declared.known.Pair.{Pair};

    ghost Value = { List Pair };

    ghost view = { λ a. take a.count a.pairs };

    ghost invariant = { λ a. (a.count ≤ 64) × (length a.pairs ≡ 64) };
}

impl PairList {
    // The list of one pair.
    pub(crate) fn of(first: Pair) -> PairList
        ensures { result ≡ first ∷ [] }
    {
        PairList {
            pairs: [first; PAIRS],
            count: 1,
        }
    }

    // The pairs, in order.
    pub(crate) fn as_slice(&self) -> &[Pair]
        ensures { result.now ≡ self.now }
    {
        &self.pairs[..self.count]
    }

    // Whether there is no room for another pair.
    pub(crate) fn is_full(&self) -> bool
        ensures full { result ≡ true → 64 ≤ length self.now }
        ensures room { result ≡ false → length self.now < 64 }
    {
        self.count >= PAIRS
    }

    // Appends a pair where there is room for it.
    pub(crate) fn push(&mut self, pair: Pair)
        requires { length self.old < 64 }
        ensures { self.new ≡ self.old ++ pair ∷ [] }
    {
        self.pairs[self.count] = pair;
        self.count += 1;
    }
}
