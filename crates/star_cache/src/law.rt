//! Laws of the cache: its headline, and that no file on a cycle of loads is good.

ghost use Rattle.std.specs.Prelude.{ℕ, suc, List};
ghost use Rattle.star_cache.specs.State.{BookState, IsLawful, Loads};
ghost use Rattle.star_cache.specs.Headline.{Headline};
ghost use Rattle.star_cache.specs.Walk.{IsOnCycle};

use crate::product::Product;
use std::marker::PhantomData;

/// The files that may be called good, counted by depth. Only contracts see it.
pub trait ByDepth {
    // the files that a file loads
    ghost loads: { ℕ → List ℕ };

    // the files that are good at a depth
    ghost GoodAt: { ℕ → ℕ → Type 0 };

    // nothing is good at depth 0
    ghost never: { (n : ℕ) → GoodAt 0 n → ⊥ };

    // each load of a good file is good at the depth below
    ghost below: { (d n m : ℕ) → GoodAt (suc d) n → Loads loads n m → GoodAt d m };
}

/// A file on a load cycle is good at no depth, nor is the next file on it.
///
/// So a load that is refused as a cycle is refused only if neither the file that loads nor its target could be good.
pub fn no_cycle_is_good<D: ByDepth>(_depths: PhantomData<D>)
    ensures { (d n m : ℕ) → IsOnCycle (Loads D.loads) n m → (D.GoodAt d n → ⊥) × (D.GoodAt d m → ⊥) }
{}

/// A lawful book has the headline.
pub fn lawful_books_have_the_headline<P: Product>(_products: PhantomData<P>)
    ensures { (b : BookState P) → IsLawful P.loads P.IsReached P.IsRight b → Headline P.IsReached P.IsRight b }
{}
