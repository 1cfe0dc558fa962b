//! The cache of modules, shared by the loaders: which file is being loaded by whom, and the result of each file. It
//! runs nothing itself. (A loader is a thread of the host, `star_host`.)
//!
//! - `Book` is the cache without a lock. It has one `Entry` for each file (fresh, running, done or spoiled, that is
//!   given up for want of memory), and for each loader the stack of files that it runs, and the entry that it waits
//!   for. Its calls `ask`, `wake`, `finish` and `abandon` are one step each.
//! - `LoadCache` is a book under a lock. Its `ask` waits until the book has an answer.
//! - `Seat` is a loader's token for the cache. It cannot be copied, and it knows how many files its loader has begun.
//! - `Product` is the result that a file leaves in its entry. The cache is generic over it. The host uses
//!   `star_outcome::told::Told`.
//!
//! Begin at `Book::ask` in `book.rt`, and read its comment first: it finds a cycle of loads by following the loaders
//! that wait for one another.
//!
//! Invariant: every book is lawful. No loaders wait for one another in a ring, each running file is on the stack of one
//! loader, each product is right for its file, and the counts are honest. The type `Book` carries it, so it holds
//! whenever the lock is free. The main promise is `Headline` in `specs/Headline`. `specs/Step` is a table of the
//! answers and changes of each call. `docs/LOADING.md` describes the protocol in words.
#![tactic(auto)]

mod book;
mod cache;
mod entry;
mod law;
mod product;
mod reply;
mod seat;

pub use book::Book;
pub use cache::LoadCache;
pub use entry::Entry;
pub use law::{ByDepth, lawful_books_have_the_headline, no_cycle_is_good};
pub use product::Product;
pub use reply::{BookError, Reply};
pub use seat::Seat;
