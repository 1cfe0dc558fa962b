//! Assertions for the crates of tests: facts, texts and bytes.
//!
//! A function here says what is amiss, and its macro ends the test by `expect`, at the place of the assertion. So an
//! assertion is two calls: the body of an `assert!` would be proved again at each use, with all that is live there.
//! Nothing here has the bound `Abort`, which is for tests alone.
#![tactic(auto)]

ghost use Rattle.std.specs.Prelude.{◌≡◌, ◌↔◌, IsOk, IsSome, IsTrue};

/// `Some` if a fact holds.
pub fn held(fact: bool) -> Option<()>
    ensures { IsSome result ↔ IsTrue fact }
{
    if fact { Some(()) } else { None }
}

/// Whether a text is the expected one. The error: the text that was found.
pub fn same<'a>(found: &'a str, want: &str) -> Result<(), &'a str>
    ensures { IsOk result ↔ (found.now ≡ want.now) }
{
    if found == want { Ok(()) } else { Err(found) }
}

/// Whether bytes are the bytes of the expected text. The error: the bytes that were found.
pub fn same_bytes<'a>(found: &'a [u8], want: &str) -> Result<(), &'a [u8]>
    ensures { IsOk result ↔ (found.now ≡ want.now) }
{
    if found == want.as_bytes() {
        Ok(())
    } else {
        Err(found)
    }
}

/// Asserts a fact. Its own text is the message, if no other is given.
#[macro_export]
macro_rules! holds {
    ($rt:expr; $fact:expr) => {
        $crate::held($fact).expect($rt, stringify!($fact))
    };
    ($rt:expr; $fact:expr, $what:expr) => {
        $crate::held($fact).expect($rt, $what)
    };
}

/// Asserts a text. The message says that it is another, if no message is given.
#[macro_export]
macro_rules! reads {
    ($rt:expr; $found:expr, $want:expr) => {
        $crate::same($found, $want).expect($rt, "another text")
    };
    ($rt:expr; $found:expr, $want:expr, $what:expr) => {
        $crate::same($found, $want).expect($rt, $what)
    };
}

/// Asserts the bytes that were written.
#[macro_export]
macro_rules! writes {
    ($rt:expr; $written:expr, $want:expr) => {
        $crate::same_bytes($written, $want).expect($rt, "other bytes")
    };
}
