//! The call of a function, up to its body, which does not run here.
//!
//!     def f(a, b=1, *rest, c, d=2, **names)
//!
//! - `passed::given` makes `Arguments` of the evaluated arguments: the positional ones, the keyword ones, with the
//!   arguments that `*` and `**` add.
//! - `callee::Callee::of` finds the callee: a function, a built-in function or a bound method. No other value can be
//!   called.
//! - `binding::bound_to` binds the arguments to the parameters; its comment has the rules. The result is
//!   `BoundArguments`: for each parameter the argument that it is bound to.
//! - `shares::build_arguments` makes the tuple of `*rest` and the dictionary of `**names`.
//!
//! Begin at `bound_to`. `star_enter` has two shorter ways for common calls, which are proved to give the same;
//! `star_eval` chooses.
//!
//! The promise: each step does what its definition in `star_meaning` says (`Arguments`, `Calls`, `Binding`). The law
//! `bound_where_they_fit` of `star_laws` says in plain words when arguments fit. See `docs/LANGUAGE.md`, "Calls".
#![tactic(auto)]

pub mod binding;
pub mod callee;
mod names;
pub mod passed;
pub mod shares;
