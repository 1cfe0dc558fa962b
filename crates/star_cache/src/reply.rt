//! The answers of the book, and its refusals.
//!
//! `Book::new` and `share` answer `AllocError`, since only memory refuses them. Calls with other refusals answer
//! `BookError`.

use thiserror::Error;

/// The book's reply to a seat that asks for a file.
#[derive(Drop)]
pub enum Reply<P> {
    /// The file was fresh: the seat runs it now, and is the only one that does.
    Begun,
    /// The file is done and good.
    Ready(P),
    /// The file is done and not good.
    Failed(P),
    /// The loader that ran the file gave it up.
    Spoiled,
    /// The file runs, and waiting for it would never end: a load cycle has the edge from the parent to it.
    Cycle,
    /// The file runs elsewhere, and the seat awaits it now.
    Wait,
}

/// Why the book refuses a call. If several apply, the first in this order is answered. A refused call of the book
/// changes nothing.
#[derive(Clone, Copy, Debug, PartialEq, Eq, Error)]
pub enum BookError {
    /// No seat has this number.
    #[error("there is no such seat")]
    NoSuch,
    /// The seat awaits a file, and may do nothing else until it is woken or gives up.
    #[error("the seat awaits a file")]
    Waiting,
    /// The file is not on top of the seat's stack.
    #[error("the file is not on top of the seat's stack")]
    NotTop,
    /// The seat awaits nothing.
    #[error("the seat awaits nothing")]
    NotWaiting,
    /// A share of the product was refused memory.
    #[error("out of memory")]
    Memory,
}
