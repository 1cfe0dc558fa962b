//! The meaning of a program: the definitions of the whole language, in `specs/`, and their laws. It is an interpreter
//! written as mathematics, which the real one is proved to agree with.
//!
//! Read the definitions in the order of `specs/Lib.antt`. `Run` has the state and how actions follow one another;
//! `Expressions`, `Statements` and `Calls` have one equation for each form; `local` in `Module` is the meaning of a
//! whole file. `Variables` looks names up by their text, `Places` by their spots (a number of frames up, and a slot).
//!
//! The only code is the types that definitions and code share:
//!
//! - `FaultCode` is the kind of a fault at run time, `Fault` adds its line.
//! - `Site` is where a run is: file, frame and line.
//! - `Arguments` are the evaluated arguments of a call.
//! - `Flow` is how a statement ends: it goes on, returns, breaks or continues.
//! - `Merge` and `Relation` say what is asked of sets.
//! - `Said` is what a run says: a printed line, or a recorded call.
//! - `Step` and the others of `story` are the story of a fault for a person. No definition uses them.
//!
//! The laws are empty functions in `law`, whose contracts are the statements. Lines only grow and steps only fall, more
//! steps change nothing that did not end for want of steps, and a run by spots is the run by names. In their proofs one
//! record, `Keeps`, has the invariants of every action, and each construct of the language is proved once to keep it.
//! See `docs/LANGUAGE.md`.
#![tactic(auto)]

pub mod fault;
pub mod given;
pub mod law;
pub mod merge;
pub mod said;
pub mod site;
pub mod story;
