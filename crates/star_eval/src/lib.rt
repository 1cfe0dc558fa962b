//! The evaluator: it walks over the tree and runs a program.
//!
//! - `evaluate` has expressions and calls: names and literals at once, all other forms in one `match` (`evaluate_any`),
//!   and `call` with its three ways to bind arguments. `nodes` has a function for each form of expression.
//! - `orders` has calls of `sorted`, `max` and `min` with `key`, which call a function for each item.
//! - `execute` has statements and assignment to targets; `targets` and `parts` help augmented assignments.
//! - `comprehensions` runs the clauses of a comprehension in two loops, without recursion; `open_clause` and `output`
//!   are their state.
//!
//! Begin at `execute.rt`, with `execute_for`, then `evaluate.rt` from its end.
//!
//! Every function takes the `Machine` (the state), the `World` (the environment), the levels, that is the depth that is
//! left, and the `Site` (file, frame, line). The functions call one another, and end because the levels decrease
//! (`#[cycle(run)]`).
//!
//! The promise of each is `Refines` of `star_machine`: it does what the definition of that part in `star_meaning` does,
//! with variables by their spots (`semantics`, in `star_world/specs/World`). See `docs/LANGUAGE.md`, "Statements" and
//! "Expressions".
#![tactic(auto)]

mod comprehensions;
pub mod evaluate;
pub mod execute;
mod nodes;
mod open_clause;
mod orders;
mod output;
mod parts;
mod targets;
