//! The globals of a published module, looked up by their names.
//!
//! A global is found by binary search if the names ascend, which `freeze` checks once, else by a walk. A module that
//! has run hands them over in byte order.

ghost use Rattle.std.specs.Prelude.{◌≡◌, ◌∷◌, map, string_bytes, true};
ghost use Rattle.star_store.specs.Store.{ascend, global_of};

use crate::values::Value;

/// Whether a name is below the first of others, if there is one.
fn is_before(name: &str, others: &[(String, Value)]) -> bool
    ensures { result ≡ true → ascend (map (λ g. string_bytes g.0) others.now)
        → ascend (name.now ∷ map (λ g. string_bytes g.0) others.now) }
{
    match others {
        [next, ..] => name < next.0.as_str(),
        [] => true,
    }
}

/// Whether each name is below the next one.
pub(crate) fn ascend(globals: &[(String, Value)]) -> bool
    ensures { result ≡ true → ascend (map (λ g. string_bytes g.0) globals.now) }
{
    let mut rest = globals;
    while let [first, others @ ..] = rest {
        if !is_before(first.0.as_str(), others) {
            return false;
        }
        rest = others;
    }
    true
}

/// The value of the first global with a name.
pub(crate) fn global_in(globals: &[(String, Value)], name: &str) -> Option<Value>
    ensures { result ≡ global_of name.now (map (λ g. (string_bytes g.0, g.1)) globals.now) }
{
    for global in globals {
        if global.0.as_str() == name {
            return Some(global.1);
        }
    }
    None
}

/// The value of the global with a name, if the names ascend.
pub(crate) fn global_among(globals: &[(String, Value)], name: &str) -> Option<Value>
    requires { ascend (map (λ g. string_bytes g.0) globals.now) }
    ensures { result ≡ global_of name.now (map (λ g. (string_bytes g.0, g.1)) globals.now) }
{
    match globals.binary_search_by(|global| global.0.as_str().cmp(name)) {
        Ok(at) => Some(globals[at].1),
        Err(_place) => None,
    }
}
