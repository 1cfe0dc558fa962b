//! One look over the members of an object: where it ends, and where its label and its status stand.

ghost use Rattle.std.specs.Prelude.{◌≡◌, ◌≤◌, ◌<◌, ◌+◌, Some, None, IfSome, length, drop, nat_eq, if◌then◌else◌};
ghost use Rattle.std.specs.List.{starts_with};
ghost use Rattle.std.specs.Option.{option_or};
ghost use Rattle.star_shards.specs.Places.{end_from, front_end, start};
ghost use Rattle.star_shards.specs.Entries.{label_front, status_front};

use crate::place::Place;

/// What stands before a label, and before a status.
const LABEL: &[u8] = b"\"label\":\"";

const STATUS: &[u8] = b"\"status\":\"";

/// Where the label and the status begin.
#[derive(Clone, Copy, Debug, PartialEq, Eq)]
pub(crate) struct Keys {
    pub label: Option<usize>,
    pub status: Option<usize>,
}

/// What one look over the members of an object finds.
#[derive(Clone, Copy, Debug, PartialEq, Eq)]
pub(crate) struct Members {
    /// The number of bytes before the bracket that ends the object.
    pub end: usize,
    pub keys: Keys,
}

/// Where a front ends that was found before, or else stands here.
fn noted(known: Option<usize>, bytes: &[u8], at: usize, front: &[u8]) -> Option<usize>
    requires { at ≤ length bytes.now }
    ensures { result ≡ option_or known
        (if starts_with nat_eq (drop at bytes.now) front.now then Some (at + length front.now) else None) }
{
    if known.is_some() {
        return known;
    }
    if bytes[at..].starts_with(front) {
        Some(at + front.len())
    } else {
        None
    }
}

impl Keys {
    const NONE: Keys = Keys {
        label: None,
        status: None,
    };

    /// With those that begin here, if a member begins here.
    fn noted(self, bytes: &[u8], at: usize) -> Keys
        requires { at ≤ length bytes.now }
        ensures label { result.label ≡ option_or self.label
            (if starts_with nat_eq (drop at bytes.now) label_front then Some (at + length label_front) else None) }
        ensures status { result.status ≡ option_or self.status
            (if starts_with nat_eq (drop at bytes.now) status_front then Some (at + length status_front) else None) }
    {
        Keys {
            label: noted(self.label, bytes, at, LABEL),
            status: noted(self.status, bytes, at, STATUS),
        }
    }
}

/// Looks over the members of an object up to the bracket that ends it; `None` if there is none.
pub(crate) fn look(bytes: &[u8]) -> Option<Members>
    ensures none { result ≡ None → end_from start 0 bytes.now ≡ None }
    ensures end { IfSome result (λ m. end_from start 0 bytes.now ≡ Some m.end) }
    ensures within { IfSome result (λ m. m.end < length bytes.now) }
    ensures label { IfSome result (λ m. m.keys.label ≡ front_end label_front bytes.now) }
    ensures status { IfSome result (λ m. m.keys.status ≡ front_end status_front bytes.now) }
{
    let mut place = Place::START;
    let mut keys = Keys::NONE.noted(bytes, 0);
    for (i, byte) in bytes.iter().enumerate() {
        if place.ends(*byte) {
            return Some(Members { end: i, keys });
        }
        if place.separates(*byte) {
            keys = keys.noted(bytes, i + 1);
        }
        place = place.after(*byte);
    }
    None
}
