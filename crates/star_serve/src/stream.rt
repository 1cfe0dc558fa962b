//! The traits `Source` and `Sink`, which say by ghost members which bytes they gave and took.

ghost use Rattle.std.specs.Prelude.{◌≡◌, ℕ, ◌+◌, ◌<◌, ◌≤◌, ◌==◌, List, [], length, take, Option, IfOk, OnErr, OnOk, is_err, if◌then◌else◌};
ghost use Rattle.std.specs.Io.KnownBytes.{IsAtEnd};
ghost use Rattle.star_serve.specs.Stream.{Adds, GaveFirst, Gives, Said};

/// A read or a write failed.
#[derive(Clone, Copy, Debug, PartialEq, Eq)]
pub struct Failed;

/// Where the bundle comes from.
pub trait Source {
    /// All that it says of its bytes.
    ghost said: { Self → Said };

    /// How many of its reads have failed.
    ghost failed: { Self → ℕ };

    /// Reads some bytes into the front of `buffer`, none at the end.
    fn read(&mut self, buffer: &mut [u8]) -> Result<usize, Failed>
        requires { 0 < length buffer.old }
        ensures within { IfOk result (λ n. n ≤ length buffer.new) }
        ensures gives { IfOk result (λ n. Gives (said self.old) (said self.new) (take n buffer.new)) }
        ensures ends { IfOk result (λ n. (said self.new).ended ≡ (n == 0)) }
        ensures at_end { IfOk result (λ n. n ≡ 0 → IsAtEnd (said self.new).left) }
        ensures fails { OnErr result (GaveFirst (said self.old) (said self.new) []) }
        ensures counts { failed self.new ≡ failed self.old + (if is_err result then 1 else 0) };
}

/// Where the report goes.
pub trait Sink {
    /// All bytes that it has taken so far, if it tells them. It need not tell them once a write has failed.
    ghost taken: { Self → Option (List ℕ) };

    /// How many of its writes have failed.
    ghost failed: { Self → ℕ };

    /// Writes all the bytes.
    fn write(&mut self, bytes: &[u8]) -> Result<(), Failed>
        ensures takes { OnOk result (Adds (taken self.old) (taken self.new) bytes.now) }
        ensures counts { failed self.new ≡ failed self.old + (if is_err result then 1 else 0) };
}
