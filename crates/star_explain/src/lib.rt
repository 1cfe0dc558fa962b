//! The text on standard error that tells a person which files of a run are at fault, and why (`docs/EXPLAIN.md`).
//!
//! `explain::explain` goes over the ends of all reached files (`ends`) and makes a text with an entry for each cause
//! (`entry`): a static fault (`star_mistakes`), a run that stopped, a cycle of loads (`cycles`). Files that fail by a
//! load are counted under the cause to which their loads lead. `trail` finds where a run stopped, and by which calls.
//! If it is known what a fault is about, `words` finds the word (`stretches` the tokens of the expression that has it),
//! and `texts` says what is wrong with it (`calls` in calls of built-in functions, whose arguments `built_ins` has;
//! `fields` has the fields of formats), and `cures` what to do (`instead` has what to write in place of what is
//! missing). Else the text comes from `pages`, which has the meaning of each code.
//!
//! - `Form` says for whom (`tools` has the forms of GitHub and SARIF), which entries are shown, how files are named, and
//!   whether there are colours (`paint`).
//! - `pages` has a `Page` for each code of a fault: its meaning and an example, for `--explain-code`.
//!
//! No report rests on any of this. It is proved to be safe and to end. The trail of a run that it prints is proved to
//! come to the line of the report (`trail::Trail`). The texts are tested.
#![tactic(auto)]

mod built_ins;
mod calls;
mod cures;
mod cycles;
mod ends;
mod entry;
pub mod explain;
mod fields;
mod instead;
pub mod pages;
mod paint;
mod stretches;
mod texts;
mod tools;
mod trail;
mod words;
