//! Tests of the cache: the book, its lock and its seats.

mod alone;
mod kept;
mod locked;
