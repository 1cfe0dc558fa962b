//! Products: the result that a file leaves in its entry of the cache.

ghost use Rattle.std.specs.Prelude.{◌≡◌, ◌<◌, ◌↔◌, ℕ, Bool, true, List, IfOk, IsOk};
ghost use Rattle.star_cache.specs.State.{Loads};

use std::alloc::AllocError;
use std::sync::ledger::Ledger;

/// The result that a file leaves in its entry when it has ended.
///
/// The ghost members define the promise of a cache: its files and the loads of each, which of them are good, and which
/// products are right for a file. Each program fixes them once, for all that it keeps in one cache.
pub trait Product: Drop {
    /// The ledger of the cache, in which each seat keeps its share.
    type Name: Ledger;

    // how many files there are
    ghost files: { ℕ };

    // how many seats the cache has
    ghost seats: { ℕ };

    // the files that a file loads, in order
    ghost loads: { ℕ → List ℕ };

    // the files whose outcome is good
    ghost IsGood: { ℕ → Type 0 };

    // the files that may be begun
    ghost IsReached: { ℕ → Type 0 };

    // the products that are right for a file
    ghost IsRight: { ℕ → Self → Type 0 };

    ghost number_of: { Self → ℕ };

    ghost is_good: { Self → Bool };

    // whether `share` is never refused memory
    ghost always_shares: { Bool };

    /// The number of the file that it is a product of.
    fn number(&self) -> usize
        ensures { result ≡ number_of self.now };

    /// Whether the file may be used by those that load it.
    fn good(&self) -> bool
        ensures { result ≡ is_good self.now };

    /// An equal one. It is refused only for want of memory.
    fn share(&mut self) -> Result<Self, AllocError>
        ensures same { self.new ≡ self.old }
        ensures equal { IfOk result (λ p. p ≡ self.old) }
        ensures always { always_shares ≡ true → IsOk result };

    ghost parts_are_seats: { Self.Name.parts ≡ seats };

    ghost right_number: { (n : ℕ) (p : Self) → IsRight n p → number_of p ≡ n };

    ghost right_good: { (n : ℕ) (p : Self) → IsRight n p → ((is_good p ≡ true) ↔ IsGood n) };

    ghost next_reached: { (n m : ℕ) → IsReached n → Loads loads n m → IsReached m };

    ghost reached_below: { (n : ℕ) → IsReached n → n < files };
}
