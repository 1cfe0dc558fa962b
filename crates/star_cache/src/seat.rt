//! A loader's token for the cache. It cannot be copied, and it knows how many files its loader has begun.

ghost use Rattle.std.specs.Prelude.{◌≡◌, ◌<◌};
ghost use Rattle.star_cache.specs.Seats.{SeatState};

use crate::product::Product;
use std::marker::Model;
use std::sync::ledger::Share;

/// A loader's place in a cache. It can't be copied, so each seat is used by one loader at a time.
///
/// It holds a share of the cache's ledger. The share takes no bytes. Its amount, which only contracts see, is the
/// number of the seat's `Begun` replies.
#[derive(Drop)]
pub struct Seat<P: Product> {
    pub(crate) number: usize,
    pub(crate) begun: Share<P::Name>,
}

impl<P: Product> Model for Seat<P> {
    ghost use Rattle.std.specs.Prelude.{◌≡◌};
    ghost use Rattle.star_cache.specs.Seats.{SeatState};

    ghost Value = { SeatState };

    ghost view = { λ s. record { number = s.number; begun = s.begun.amount } };

    ghost invariant = { λ s. s.begun.parts ≡ 1 };
}

impl<P: Product> Seat<P> {
    /// The seat's number in the book.
    pub fn number(&self) -> usize
        ensures { result ≡ self.now.number }
    {
        self.number
    }
}
