//! The contents of keys: hashed and compared without a store.
//!
//! The content of a key is a flat row of atoms, in which a tuple says how many items follow, and a struct its names:
//! one allocation, compared and hashed like any `Vec` of an enum. Another key needs no allocation: its content is its
//! one atom (`KeyContent`), and a look-up asks the index by the key itself (`ScalarKey`), which hashes alike
//! (`hashed_alike`). A copy of its string would cost two atomic additions.

ghost use Rattle.std.specs.Prelude.{◌≡◌, ◌∷◌, [], IfOk};
ghost use Rattle.std.specs.Cmp.{partial_equiv_from_equiv};
ghost use Rattle.std.specs.Cmp.Lexicographic.{lists_equiv, pointwise};
ghost use Rattle.std.specs.Cmp.Rules.{hashing};
ghost use Rattle.std.specs.Hash as fed;
ghost use Rattle.std.specs.Option.{option_map};
ghost use Rattle.std.proofs.Common.{rules};
ghost use Rattle.star_store.specs.Content.{ContentsStay, IsPut, KeysHaveContents, SameKeysHaveOneContent, atom_content, content, content_row, only_atom, same_atom};
ghost use Rattle.star_store.specs.Index.{far_home};
ghost use Rattle.star_store.specs.Key.{key_levels};
ghost use Rattle.star_store.specs.Scalars.{content_hashed, contents_alike, hashed, hashed_alike, hashed_as_equal, is_of, is_only, of_alike, scalar_atom};
ghost use Rattle.star_store.specs.Store.{look};
ghost use Rattle.star_store.specs.declared.content.Atom.TheVariants as atom;

use crate::arena::{Arena, Homes};
use crate::fields::Names;
use crate::key::KEY_LEVELS;
use crate::values::{Cell, Value, Values};
use indexmap::Equivalent;
use star_text::Text;
use std::alloc::{AllocError, Global};
use std::hash::{Hash, Hasher};
use std::marker::Model;
use std::slice;

/// A part of a key's content: None, a bool, an int, a string, how many items a tuple has, whose contents follow, or the
/// names of a struct, whose values follow as a tuple. `Far` is in no content: an index has it for a key that another
/// file made, by the number of its value.
#[derive(PartialEq, Eq, Hash, Drop)]
pub enum Atom {
    Nothing,
    Bool(bool),
    Int(i64),
    Text(Text),
    Row(usize),
    Far { home: u32, at: u32 },
    Names(Names),
}

/// The content of a key, which may be hashed and compared with no store beside it.
pub struct KeyContent {
    atoms: Atoms,
}

impl Drop for KeyContent {
    fn drop(self) {
        let KeyContent { atoms: _ } = self;
    }
}

/// The atoms of a content. The one atom of a key that is not a tuple takes no memory of its own.
#[derive(Drop)]
enum Atoms {
    One(Atom),
    Row(Vec<Atom>),
}

impl Model for KeyContent {
    ghost use Rattle.std.specs.Prelude.{List};
    ghost use Rattle.star_store.specs.Atoms.{atoms_in};
    ghost use Rattle.star_store.specs.declared.content.Atom.{Atom as AnyAtom};

    ghost Value = { List AnyAtom };

    ghost view = { λ k. atoms_in k.atoms };
}

impl KeyContent {
    /// A content that no key has: a row whose items do not follow.
    pub(crate) fn of_no_key(count: usize) -> KeyContent
        ensures { result ≡ atom.Row count ∷ [] }
    {
        KeyContent {
            atoms: Atoms::One(Atom::Row(count)),
        }
    }

    /// The content of a string.
    pub(crate) fn of_text(text: &Text) -> Result<KeyContent, AllocError>
        ensures { IfOk result (λ k. k ≡ atom.Text text.now ∷ []) }
    {
        let atoms = Atoms::One(Atom::Text(text.share()?));
        Ok(KeyContent { atoms })
    }

    /// The entry of an index for a key that another file made.
    pub(crate) fn far(home: u32, at: u32) -> KeyContent
        ensures { result ≡ atom.Far home at ∷ [] }
    {
        KeyContent {
            atoms: Atoms::One(Atom::Far { home, at }),
        }
    }

    /// The file that made the key, if this is the number of a value.
    pub(crate) fn far_home(&self) -> Option<u32>
        ensures { result ≡ far_home self.now }
    {
        match self.as_slice() {
            [Atom::Far { home, .. }] => Some(*home),
            _ => None,
        }
    }

    /// Its atoms, in order.
    pub fn as_slice(&self) -> &[Atom]
        ensures { result.now ≡ self.now }
    {
        match &self.atoms {
            Atoms::One(atom) => slice::from_ref(atom),
            Atoms::Row(atoms) => atoms.as_slice(),
        }
    }
}

impl PartialEq for KeyContent {
    ghost eq = { λ x y. pointwise same_atom x y };

    ghost laws = { partial_equiv_from_equiv contents_alike };

    fn eq(&self, other: &KeyContent) -> bool {
        self.as_slice() == other.as_slice()
    }
}

impl Eq for KeyContent {
    ghost laws = { contents_alike };
}

impl Hash for KeyContent {
    ghost hash_input = { λ k. content_hashed k };

    ghost respects_eq = { λ x y. hashed_as_equal x y };

    fn hash<H: Hasher>(&self, state: &mut H) {
        self.as_slice().hash(state);
    }
}

/// A key that is not a tuple, with its string borrowed.
#[derive(Clone, Copy, PartialEq, Eq, Hash)]
pub enum Scalar<'a> {
    Nothing,
    Bool(bool),
    Int(i64),
    Text(&'a Text),
}

impl<'a> Scalar<'a> {
    /// The one atom of its content.
    fn atom(self) -> Result<Atom, AllocError>
        ensures { IfOk result (λ a. a ≡ scalar_atom self.entry) }
    {
        Ok(match self {
            Scalar::Nothing => Atom::Nothing,
            Scalar::Bool(b) => Atom::Bool(b),
            Scalar::Int(n) => Atom::Int(n),
            Scalar::Text(text) => Atom::Text(text.share()?),
        })
    }
}

/// The query for a key that is not a tuple, so that its content need not be made.
#[derive(Clone, Copy, PartialEq, Eq)]
pub struct ScalarKey<'a> {
    pub scalar: Scalar<'a>,
}

impl<'a> Hash for ScalarKey<'a> {
    ghost hash_input = { λ k. hashed k.scalar };

    ghost respects_eq = { Prim.search (hashing, rules) };

    fn hash<H: Hasher>(&self, state: &mut H) {
        1usize.hash(state);
        self.scalar.hash(state);
    }
}

impl<'a> Equivalent<KeyContent> for ScalarKey<'a> {
    ghost equivalent = { λ k atoms. is_of k.scalar atoms };

    ghost respects_hash = { λ k atoms. hashed_alike k.scalar atoms };

    ghost respects_eq = { λ k x y. of_alike k.scalar x y };

    fn equivalent(&self, key: &KeyContent) -> bool {
        match (self.scalar, key.as_slice()) {
            (Scalar::Text(text), [Atom::Text(other)]) => text.as_str() == other.as_str(),
            (Scalar::Int(n), [Atom::Int(other)]) => n == *other,
            (Scalar::Bool(b), [Atom::Bool(other)]) => b == *other,
            (Scalar::Nothing, [Atom::Nothing]) => true,
            _ => false,
        }
    }
}

/// A key that is not a tuple; `None` for a tuple, and for a value that is not a key.
pub(crate) fn scalar_key<'a>(
    arena: &'a Arena,
    homes: &'a Homes<'a>,
    value: Value,
) -> Option<ScalarKey<'a>>
    ensures { option_map (λ k. scalar_atom k.scalar) result ≡ only_atom (look arena.now homes.now) value }
{
    let scalar = match value {
        Value::NoneValue => Scalar::Nothing,
        Value::Bool(b) => Scalar::Bool(b),
        Value::Int(n) => Scalar::Int(n),
        Value::Ref { .. } => match arena.read(homes, value) {
            Some(Cell::Text(text)) => Scalar::Text(text),
            _ => return None,
        },
        Value::Builtin(_) => return None,
    };
    Some(ScalarKey { scalar })
}

/// Whether a value is the same key as a scalar.
#[inline(always)]
pub(crate) fn is_scalar<'a>(
    arena: &'a Arena,
    homes: &'a Homes<'a>,
    key: Scalar<'_>,
    value: Value,
) -> bool
    ensures { result ≡ is_only key.entry (only_atom (look arena.now homes.now) value) }
{
    match (key, value) {
        (Scalar::Text(text), Value::Ref { .. }) => match arena.read(homes, value) {
            Some(Cell::Text(other)) => text.as_str() == other.as_str(),
            _ => false,
        },
        (Scalar::Int(n), Value::Int(other)) => n == other,
        (Scalar::Bool(b), Value::Bool(other)) => b == other,
        (Scalar::Nothing, Value::NoneValue) => true,
        _ => false,
    }
}

/// The content of a key; `None` if the value is not a key.
#[tactic(auto, using(crate::proofs::Contents::only_atom_is))]
pub fn content(
    alloc: Global,
    arena: &Arena,
    homes: &Homes,
    value: Value,
) -> Result<Option<KeyContent>, AllocError>
    ensures { IfOk result (λ o. o ≡ content (look arena.now homes.now) key_levels value) }
{
    if let Some(key) = scalar_key(arena, homes, value) {
        let atoms = Atoms::One(key.scalar.atom()?);
        return Ok(Some(KeyContent { atoms }));
    }
    let mut row = Vec::new(alloc);
    if !put_content(arena, homes, KEY_LEVELS, value, &mut row)? {
        return Ok(None);
    }
    let atoms = Atoms::Row(row);
    Ok(Some(KeyContent { atoms }))
}

/// Adds the content of a key, and says whether there is one. A tuple is a row, and a struct its names and the row of
/// its values.
#[cycle(put_content)]
#[tactic(auto, using(crate::proofs::Contents::content_at, crate::proofs::Contents::content_at_none, crate::proofs::Contents::head_added))]
fn put_content<'a>(
    arena: &'a Arena,
    homes: &'a Homes<'a>,
    levels: u32,
    value: Value,
    atoms: &mut Vec<Atom>,
) -> Result<bool, AllocError>
    ensures { IfOk result (λ whole. IsPut atoms.old.items (content (look arena.now homes.now) levels value)
        atoms.new.items whole) }
{
    if levels == 0 {
        return Ok(false);
    }
    match value {
        Value::Ref { .. } => match arena.read(homes, value) {
            Some(Cell::Tuple(items)) => put_row(arena, homes, levels - 1, items, atoms),
            Some(Cell::Struct(fields)) => {
                let fields = fields.get();
                atoms.push(Atom::Names(fields.share_names()?))?;
                put_row(arena, homes, levels - 1, fields.values(), atoms)
            }
            _ => put_atom(arena, homes, value, atoms),
        },
        _ => put_atom(arena, homes, value, atoms),
    }
}

/// Adds the content of a row of keys: the number of its items, and then their contents.
#[cycle(put_content)]
#[tactic(auto, using(crate::proofs::Contents::head_added))]
fn put_row<'a>(
    arena: &'a Arena,
    homes: &'a Homes<'a>,
    levels: u32,
    items: &'a Values,
    atoms: &mut Vec<Atom>,
) -> Result<bool, AllocError>
    ensures { IfOk result (λ whole. IsPut atoms.old.items
        (content_row (content (look arena.now homes.now) levels) items.now) atoms.new.items whole) }
{
    atoms.push(Atom::Row(items.len()))?;
    for item in items.as_slice() {
        if !put_content(arena, homes, levels, *item, atoms)? {
            return Ok(false);
        }
    }
    Ok(true)
}

/// Adds the one atom of the content of a key that is not a tuple, and returns whether there is one.
fn put_atom(
    arena: &Arena,
    homes: &Homes,
    value: Value,
    atoms: &mut Vec<Atom>,
) -> Result<bool, AllocError>
    ensures { IfOk result (λ whole. IsPut atoms.old.items (atom_content (look arena.now homes.now) value)
        atoms.new.items whole) }
{
    let Some(key) = scalar_key(arena, homes, value) else {
        return Ok(false);
    };
    atoms.push(key.scalar.atom()?)?;
    Ok(true)
}

/// Two values are the same key exactly if both have a content and it is the same one. (`docs/LANGUAGE.md`, "Equality,
/// order, keys and texts".)
pub fn same_keys_have_one_content()
    ensures { SameKeysHaveOneContent }
{}

/// A value is a key exactly if it has a content.
pub fn keys_have_contents()
    ensures { KeysHaveContents }
{}

/// As long as strings, tuples and structs stay, contents stay: new cells change none, and neither does a write of a
/// list, a dictionary or a frame.
pub fn contents_stay()
    ensures { ContentsStay }
{}
