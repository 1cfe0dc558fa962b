//! Tests of what reads files, as far as no use of the program shows it: texts, labels, patterns of names, paths of the
//! disk, the tokens of the lexer, and the spots that the resolver gives to names. One more is about keys of dictionaries
//! (`tests/keys.rt`).
//!
//! Tests are crates of their own, so that no crate is proved once more for its tests. They call public functions only.
//! Most tests go through a table in a text: a row has a text and the result that it must have. Begin at
//! `tests/tokens.rt` and `tests/rows.rt`, or at `tests/names.rt` for the resolver. The parser is tested in
//! `tests/programs` of the repository, bundles in its `tests/loaders`, folders and words in its `tests/folders`, and static
//! faults in its `tests/cases`.
#![tactic(auto)]

#[cfg(test)]
mod tests;
