//! Looking keyword arguments up by their names: few by going through them, many by a map.

ghost use Rattle.std.specs.Prelude.{◌≡◌, ℕ, IfOk, List};
ghost use Rattle.star_meaning.specs.Arguments as spec;
ghost use Rattle.star_meaning.specs.Binding.{value_named};
ghost use Rattle.star_call.specs.Found.{value_in};

use star_meaning::given::KeywordArgument;
use star_store::values::Value;
use std::alloc::{AllocError, Global};
use std::collections::BTreeMap;
use std::marker::Model;

/// Up to this many names are compared one by one; more are looked for in a map.
pub(crate) const MAP_ABOVE: usize = 8;

/// Whether a name is among those given.
pub(crate) fn is_given(name: &str, named: &[KeywordArgument]) -> bool
    ensures { result ≡ spec.is_given name.now named.now }
{
    for value in named {
        if value.name.as_str() == name {
            return true;
        }
    }
    false
}

/// The keyword argument with this name: the first one.
pub(crate) fn value_named(name: &str, named: &[KeywordArgument]) -> Option<Value>
    ensures { result ≡ value_named name.now named.now }
{
    for value in named {
        if value.name.as_str() == name {
            return Some(value.value);
        }
    }
    None
}

/// Whether a name comes twice: each is compared with all after it.
fn few_come_twice(named: &[KeywordArgument]) -> bool
    ensures { result ≡ spec.comes_twice named.now }
{
    let mut rest = named;
    while let [first, more @ ..] = rest {
        if is_given(first.name.as_str(), more) {
            return true;
        }
        rest = more;
    }
    false
}

/// Whether a name comes twice: each of many is looked for among those before it.
pub(crate) fn comes_twice(alloc: Global, named: &[KeywordArgument]) -> Result<bool, AllocError>
    ensures { IfOk result (λ twice. twice ≡ spec.comes_twice named.now) }
{
    if named.len() <= MAP_ABOVE {
        return Ok(few_come_twice(named));
    }
    let mut seen: BTreeMap<&str, ()> = BTreeMap::new(alloc);
    for value in named {
        if seen.insert(value.name.as_str(), ())?.is_some() {
            return Ok(true);
        }
    }
    Ok(false)
}

/// The first value of each name.
fn first_values<'g>(
    alloc: Global,
    named: &'g [KeywordArgument],
) -> Result<BTreeMap<&'g str, Value>, AllocError>
    ensures { IfOk result (λ first. (name : List ℕ) → value_in first name ≡ value_named name named.now) }
{
    let mut first = BTreeMap::new(alloc);
    for value in named {
        let name = value.name.as_str();
        if !first.contains_key(name) {
            first.insert(name, value.value)?;
        }
    }
    Ok(first)
}

/// Keyword arguments that are looked up by their names: few by going through them, many by a map.
#[derive(Drop)]
pub(crate) struct ByName<'g> {
    all: &'g [KeywordArgument],
    first: Option<BTreeMap<&'g str, Value>>,
}

impl<'g> Model for ByName<'g> {
    ghost use Rattle.std.specs.Prelude.{List};
    ghost use Rattle.star_meaning.specs.declared.given.KeywordArgument.{KeywordArgument as OneNamed};
    ghost use Rattle.star_call.specs.Found.{AreFound};

    ghost Value = { List OneNamed };

    ghost view = { λ b. b.all.now };

    ghost invariant = { λ b. AreFound b.all.now b.first };
}

impl<'g> ByName<'g> {
    /// These keyword arguments, in their order; `names` names will be looked up.
    pub(crate) fn of(
        alloc: Global,
        all: &'g [KeywordArgument],
        names: usize,
    ) -> Result<ByName<'g>, AllocError>
        ensures { IfOk result (λ named. named ≡ all.now) }
    {
        if all.len() <= MAP_ABOVE || names <= MAP_ABOVE {
            return Ok(ByName { all, first: None });
        }
        let first = Some(first_values(alloc, all)?);
        Ok(ByName { all, first })
    }

    /// The keyword argument with this name: the first one.
    pub(crate) fn value(&self, name: &str) -> Option<Value>
        ensures { result ≡ value_named name.now self.now }
    {
        match &self.first {
            Some(first) => first.get(name).copied(),
            None => value_named(name, self.all),
        }
    }

    /// Whether a name is among those given.
    #[tactic(auto, using(crate::proofs::Found::given_found))]
    pub(crate) fn has(&self, name: &str) -> bool
        ensures { result ≡ spec.is_given name.now self.now }
    {
        self.value(name).is_some()
    }
}
