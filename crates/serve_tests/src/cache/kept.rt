//! A product for tests: 64 files, each of which loads the next and the first. Those from the eighth on are good.

ghost use Rattle.std.specs.Prelude.{◌≡◌, ◌<◌, ◌≤◌, ◌↔◌, true, Contains};
ghost use Rattle.star_cache.specs.Ring.{ring};

use star_cache::Product;
use std::alloc::AllocError;
use std::marker::PhantomData;
use std::sync::ledger::Ledger;

#[derive(Drop)]
pub struct Kept<L: Ledger> {
    pub number: usize,
    pub good: bool,
    ledger: PhantomData<L>,
}

impl<L: Ledger> Product for Kept<L> {
    ghost use Rattle.star_cache.specs.Ring.{ring};
    ghost use Rattle.std.proofs.Common.{refl, rules};

    type Name = L;

    ghost files = { 64 };

    ghost seats = { L.parts };

    ghost loads = { ring };

    ghost IsGood = { λ n. 8 ≤ n };

    ghost IsReached = { λ n. n < 64 };

    ghost IsRight = { λ n p. (p.number ≡ n) × ((p.good ≡ true) ↔ (8 ≤ n)) };

    ghost number_of = { λ p. p.number };

    ghost is_good = { λ p. p.good };

    ghost always_shares = { true };

    ghost parts_are_seats = { refl };

    ghost right_number = { λ n p h. h.0 };

    ghost right_good = { λ n p h. h.1 };

    ghost next_reached = { Prim.search rules };

    ghost reached_below = { λ n h. h };

    fn number(&self) -> usize {
        self.number
    }

    fn good(&self) -> bool {
        self.good
    }

    fn share(&mut self) -> Result<Self, AllocError> {
        Ok(Kept {
            number: self.number,
            good: self.good,
            ledger: PhantomData,
        })
    }
}

// The product of a file.
pub fn ended<L: Ledger>(number: usize) -> Kept<L>
    ensures { (result.number ≡ number) × ((result.good ≡ true) ↔ (8 ≤ number)) }
{
    Kept {
        number,
        good: number >= 8,
        ledger: PhantomData,
    }
}

// The next file in the ring of the first `size` files, which the file loads.
pub fn next(number: usize, size: usize) -> usize
    requires { (number < size) × (size ≤ 64) }
    ensures below { result < size }
    ensures load { Contains (ring number) result }
{
    if number + 1 == size { 0 } else { number + 1 }
}
