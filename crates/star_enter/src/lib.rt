//! Entering a call: from the callee and the arguments to the frame of the body. Two shorter ways to bind arguments are
//! here; the general one is `star_call::binding::bound_to`.
//!
//! - `calls::fit_positionally` asks whether all arguments are positional and all parameters plain names; if so,
//!   `enter_positional` puts the values straight into the frame.
//! - `ordered::bound_of` binds the arguments of a definition with more than 16 parameters by its layout, which is made
//!   once for each definition. The frame begins as the row of the defaults, and only the arguments are looked at.
//! - `calls::enter_call` takes every other call, after `bound_to`.
//!
//! Begin at `calls.rt`. `Bound` (in `ordered`) is the only type: the slots of the frame, and the arguments that are
//! left for `*name` and `**name`.
//!
//! The promise: all three ways give what `bound_to` and `build_arguments` give, the payments included. Frames are made
//! here and not in `star_call`, since they need the programs of `star_world`.
#![tactic(auto)]

pub mod calls;
pub mod ordered;
