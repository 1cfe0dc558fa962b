//! The entry of a file in the book: fresh, running, done or spoiled.

ghost use Rattle.std.specs.Prelude.{◌≡◌, MatchResult};
ghost use Rattle.star_cache.specs.Step.{IsStanding, IsUnshared};

use crate::product::Product;
use crate::reply::{BookError, Reply};

/// How far a file has come.
#[derive(Drop)]
pub enum Entry<P> {
    /// Nobody has begun it.
    Fresh,
    /// One loader runs it.
    Running,
    /// It has ended with this product.
    Done(P),
    /// Its loader gave it up.
    Spoiled,
}

// The state of an entry for the seat that asks, with the reply if it has ended.
#[derive(Drop)]
pub enum EntryState<P> {
    Fresh,
    Running,
    Ended(Reply<P>),
}

// The state of an entry, with a share of its product if it is done.
pub fn state_of<P: Product>(entry: &mut Entry<P>) -> Result<EntryState<P>, BookError>
    ensures standing { MatchResult result (λ it. IsStanding P.is_good entry.old it)
        (λ e. IsUnshared P.always_shares entry.old e) }
    ensures same { entry.new ≡ entry.old }
{
    match entry {
        Entry::Fresh => Ok(EntryState::Fresh),
        Entry::Running => Ok(EntryState::Running),
        Entry::Spoiled => Ok(EntryState::Ended(Reply::Spoiled)),
        Entry::Done(product) => match product.share() {
            Err(_) => Err(BookError::Memory),
            Ok(shared) => {
                if shared.good() {
                    Ok(EntryState::Ended(Reply::Ready(shared)))
                } else {
                    Ok(EntryState::Ended(Reply::Failed(shared)))
                }
            }
        },
    }
}
