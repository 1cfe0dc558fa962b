//! The fields of a struct: names in byte order with their values.
//!
//! The names are shared: the content of a struct that is a key has them too. A field is found by binary search.

ghost use Rattle.std.specs.Prelude.{◌≡◌, IfOk, length, slice_get, true, zip};
ghost use Rattle.std.specs.Option.{option_map};
ghost use Rattle.std.specs.Cmp.{partial_equiv_from_equiv};
ghost use Rattle.std.specs.Cmp.Lexicographic.{bytes_decides, lists_equiv, nat_list_eq_equiv};
ghost use Rattle.std.specs.Hash as fed;
ghost use Rattle.star_store.specs.Fields.{below_next, names_of, risen, rises, same_names, values_of};
ghost use Rattle.star_store.specs.Store.{global_of};

use crate::values::{Value, Values};
use star_text::Text;
use std::alloc::AllocError;
use std::hash::{Hash, Hasher};
use std::marker::Model;
use std::sync::ArcSlice;

/// The names of a struct, whose copies share them: each is below the next one, by their bytes.
pub struct Names {
    texts: ArcSlice<Text>,
}

impl Drop for Names {
    fn drop(self) {
        let Names { texts: _ } = self;
    }
}

impl Model for Names {
    ghost use Rattle.std.specs.Prelude.{List, ℕ, ◌≡◌, true};
    ghost use Rattle.std.specs.Arc.{arc_slice_items};
    ghost use Rattle.star_store.specs.Fields.{rises};

    ghost Value = { List (List ℕ) };

    ghost view = { λ n. arc_slice_items n.texts };

    ghost invariant = { λ n. rises (arc_slice_items n.texts) ≡ true };
}

impl Names {
    /// The names.
    pub fn as_slice(&self) -> &[Text]
        ensures names { result.now ≡ self.now }
        ensures order { rises self.now ≡ true }
    {
        self.texts.as_slice()
    }

    /// The same names, shared and not copied.
    fn share(&self) -> Result<Names, AllocError>
        ensures { IfOk result (λ shared. shared ≡ self.now) }
    {
        let texts = self.texts.clone()?;
        Ok(Names { texts })
    }
}

impl PartialEq for Names {
    ghost eq = { λ x y. same_names x y };

    ghost laws = { partial_equiv_from_equiv (lists_equiv nat_list_eq_equiv) };

    fn eq(&self, other: &Names) -> bool {
        self.as_slice() == other.as_slice()
    }
}

impl Eq for Names {
    ghost laws = { lists_equiv nat_list_eq_equiv };
}

impl Hash for Names {
    ghost hash_input = { λ names. fed.slice fed.str names };

    ghost respects_eq = { (fed.items_Alike (fed.same_Alike fed.str bytes_decides)).fed };

    fn hash<H: Hasher>(&self, state: &mut H) {
        self.as_slice().hash(state);
    }
}

/// Whether a name is below the first of others, if there is one.
fn is_below(name: &Text, others: &[Text]) -> bool
    ensures { result ≡ below_next name.now others.now }
{
    match others {
        [next, ..] => name.as_str() < next.as_str(),
        [] => true,
    }
}

/// Whether each name is below the next one.
fn rise(names: &[Text]) -> bool
    ensures { result ≡ rises names.now }
{
    let mut rest = names;
    while let [first, others @ ..] = rest {
        if !is_below(first, others) {
            return false;
        }
        rest = others;
    }
    true
}

/// The names of a struct, and the value of each.
pub struct Fields {
    names: Names,
    values: Values,
}

impl Drop for Fields {
    fn drop(self) {
        let Fields {
            names: _,
            values: _,
        } = self;
    }
}

impl Model for Fields {
    ghost use Rattle.std.specs.Prelude.{◌≡◌, List, ℕ, length, true, zip};
    ghost use Rattle.star_store.specs.Fields.{rises};
    ghost use Rattle.star_store.specs.declared.values.Value.{Value as AnyValue};

    ghost Value = { List (List ℕ × AnyValue) };

    ghost view = { λ f. zip f.names f.values };

    ghost invariant = { λ f. length f.names ≡ length f.values };
}

impl Fields {
    /// These names with these values; `None` unless each name is below the next one. The error: an allocation failed.
    #[tactic(auto, using(crate::proofs::Structs::names_beside))]
    pub fn new(names: Vec<Text>, values: Vec<Value>) -> Result<Option<Fields>, AllocError>
        requires { length names.items ≡ length values.items }
        ensures { IfOk result (λ made. made ≡ risen (zip names.items values.items)) }
    {
        if !rise(&names) {
            return Ok(None);
        }
        let texts = ArcSlice::from_vec(names)?;
        let names = Names { texts };
        let values = Values::new(values);
        Ok(Some(Fields { names, values }))
    }

    /// The names: each is below the next one.
    #[tactic(auto, using(crate::proofs::Structs::names_beside))]
    pub fn names(&self) -> &[Text]
        ensures names { result.now ≡ names_of self.now }
        ensures order { rises (names_of self.now) ≡ true }
    {
        self.names.as_slice()
    }

    /// The names, shared and not copied.
    #[tactic(auto, using(crate::proofs::Structs::names_beside))]
    pub fn share_names(&self) -> Result<Names, AllocError>
        ensures { IfOk result (λ shared. shared ≡ names_of self.now) }
    {
        self.names.share()
    }

    /// Whether another struct has the same names.
    #[tactic(auto, using(crate::proofs::Structs::names_beside))]
    pub fn has_names_of(&self, other: &Fields) -> bool
        ensures { result ≡ same_names (names_of self.now) (names_of other.now) }
    {
        self.names == other.names
    }

    /// The values, in the order of their names.
    #[tactic(auto, using(crate::proofs::Structs::values_beside))]
    pub fn values(&self) -> &Values
        ensures { result.now ≡ values_of self.now }
    {
        &self.values
    }

    /// How many there are.
    #[tactic(auto, using(crate::proofs::Structs::as_many))]
    pub fn len(&self) -> usize
        ensures count { result ≡ length self.now }
        ensures order { rises (names_of self.now) ≡ true }
    {
        self.names().len()
    }

    /// The field at a place: its name and its value.
    #[tactic(auto, using(crate::proofs::Structs::at_parts))]
    pub fn at(&self, place: usize) -> Option<(&Text, Value)>
        ensures { option_map (λ f. (f.0.now, f.1)) result ≡ slice_get self.now place }
    {
        let name = self.names().get(place)?;
        let value = self.values().get(place)?;
        Some((name, value))
    }

    /// The value of a name.
    pub fn get(&self, name: &str) -> Option<Value>
        ensures { result ≡ global_of name.now self.now }
    {
        match self
            .names()
            .binary_search_by(|other| other.as_str().cmp(name))
        {
            Ok(at) => self.values.get(at),
            Err(_place) => None,
        }
    }
}
