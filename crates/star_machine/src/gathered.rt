//! `DictBuilder`: the entries of a dictionary that is being made, with an index from 16 entries on.
//!
//! It serves `dict(..)`, `|`, a display, and sets. If contents are not at hand, the entries are walked.

ghost use Rattle.std.specs.Prelude.{◌≡◌, ◌++◌, ◌∷◌, [], None, Some, map, is_some, not, true, if◌then◌else◌, IfOk, IfSome, OnErr, OnOk};
ghost use Rattle.std.specs.Bool.{OnTrue};
ghost use Rattle.star_store.specs.Content.{content as content_of};
ghost use Rattle.star_store.specs.Index.{place_by};
ghost use Rattle.star_store.specs.Key.{key_levels};
ghost use Rattle.star_store.specs.Store.{Store, look};
ghost use Rattle.star_meaning.specs.Entries.{with_entry};
ghost use Rattle.star_meaning.specs.Program.{Setting as GivenSetting};
ghost use Rattle.star_meaning.specs.Values.{place_in};
ghost use Rattle.star_machine.specs.DictBuilder.{IsGathered, contents_of};

use crate::machine::Machine;
use crate::setting::Setting;
use indexmap::IndexSet;
use star_store::content::KeyContent;
use star_store::values::{Entries, Value};
use std::alloc::{AllocError, Global};
use std::marker::Model;

/// Among fewer entries a walk is as fast as a look-up.
const INDEX_FROM: usize = 16;

/// The contents of keys, in order.
#[derive(Drop)]
struct Contents {
    keys: IndexSet<KeyContent>,
}

impl Model for Contents {
    ghost use Rattle.std.specs.Prelude.{List};
    ghost use Rattle.star_store.specs.declared.content.Atom.{Atom as AnyAtom};

    ghost Value = { List (List AnyAtom) };

    ghost view = { λ c. c.keys.keys };
}

impl Contents {
    /// No content yet, and room for `capacity`.
    fn with_capacity(alloc: Global, capacity: usize) -> Result<Contents, AllocError>
        ensures { IfOk result (λ contents. contents ≡ []) }
    {
        Ok(Contents {
            keys: IndexSet::with_capacity(alloc, capacity)?,
        })
    }

    /// The place of a content.
    fn place(&self, content: &KeyContent) -> Option<usize>
        ensures { result ≡ place_by content.now self.now }
    {
        self.keys.get_index_of(content)
    }

    /// Adds a content after all others, and says whether it was added: else it was there already, or memory was
    /// refused, and nothing has changed.
    fn push(&mut self, content: KeyContent) -> bool
        ensures { self.new ≡ (if result then self.old ++ content ∷ [] else self.old) }
    {
        match self.keys.insert(content) {
            Ok(added) => added,
            Err(_) => false,
        }
    }
}

/// Entries gathered for a new dictionary, with the contents of their keys if these are at hand: by them the place of a
/// key is found at once, else by a walk.
#[derive(Drop)]
pub struct DictBuilder {
    entries: Entries,
    contents: Option<Contents>,
}

impl Model for DictBuilder {
    ghost use Rattle.star_machine.specs.DictBuilder.{Gathering};

    ghost Value = { Gathering };

    ghost view = { λ g. record { entries = g.entries; contents = g.contents } };
}

impl DictBuilder {
    /// No entry yet.
    #[tactic(auto, unfolding(crate::specs::DictBuilder::IsGathered))]
    pub fn new(alloc: Global) -> DictBuilder
        ensures empty { result.entries ≡ [] }
        ensures gathered { (w : GivenSetting) (s : Store) → IsGathered w s result }
    {
        DictBuilder {
            entries: Entries::new(alloc),
            contents: None,
        }
    }

    /// No entry yet, and room for `capacity`.
    #[tactic(auto, unfolding(crate::specs::DictBuilder::IsGathered))]
    pub fn with_capacity(alloc: Global, capacity: usize) -> Result<DictBuilder, AllocError>
        ensures empty { IfOk result (λ g. g.entries ≡ []) }
        ensures gathered { IfOk result (λ g. (w : GivenSetting) (s : Store) → IsGathered w s g) }
    {
        Ok(DictBuilder {
            entries: Entries::with_capacity(alloc, capacity)?,
            contents: None,
        })
    }

    /// These entries, to which about `more` will be added.
    #[tactic(auto, unfolding(crate::specs::DictBuilder::IsGathered))]
    pub fn of(machine: &Machine, setting: &Setting, entries: Entries, more: usize) -> DictBuilder
        ensures same { result.entries ≡ entries }
        ensures gathered { IsGathered setting.now machine.now.store result }
    {
        let contents = if entries.len() < INDEX_FROM || more < INDEX_FROM {
            None
        } else {
            contents_of(machine, setting, &entries)
        };
        DictBuilder { entries, contents }
    }

    /// The entries.
    pub fn into_entries(self) -> Entries
        ensures { result ≡ self.entries }
    {
        self.entries
    }

    /// Puts an entry in: a key that is there keeps its place.
    #[tactic(auto, unfolding(crate::specs::DictBuilder::IsGathered))]
    pub fn put(
        &mut self,
        machine: &Machine,
        setting: &Setting,
        entry: (Value, Value),
    ) -> Result<(), AllocError>
        requires { IsGathered setting.now machine.now.store self.old }
        ensures put { OnOk result (self.new.entries ≡ with_entry setting.now machine.now self.old.entries entry) }
        ensures gathered { OnOk result (IsGathered setting.now machine.now.store self.new) }
        ensures refused { OnErr result (self.new ≡ self.old) }
    {
        let content = self.content(machine, setting, entry.0);
        let Some(at) = self.place(machine, setting, entry.0, &content) else {
            return self.push(machine, setting, entry, content);
        };
        let Some((there, _old)) = self.entries.get(at) else {
            return Ok(());
        };
        self.entries.set(at, there, entry.1);
        Ok(())
    }

    /// Puts an entry after all others if its key is not there yet, and says whether it was put.
    pub fn put_new(
        &mut self,
        machine: &Machine,
        setting: &Setting,
        entry: (Value, Value),
    ) -> Result<bool, AllocError>
        requires { IsGathered setting.now machine.now.store self.old }
        ensures new { IfOk result (λ new. new
            ≡ not (is_some (place_in setting.now machine.now entry.0 self.old.entries))) }
        ensures put { IfOk result (λ new.
            OnTrue new (self.new.entries ≡ with_entry setting.now machine.now self.old.entries entry)) }
        ensures gathered { OnOk result (IsGathered setting.now machine.now.store self.new) }
        ensures refused { OnErr result (self.new ≡ self.old) }
    {
        let content = self.content(machine, setting, entry.0);
        if self.place(machine, setting, entry.0, &content).is_some() {
            return Ok(false);
        }
        self.push(machine, setting, entry, content)?;
        Ok(true)
    }

    /// Whether there is an entry with a key.
    pub fn has(&self, machine: &Machine, setting: &Setting, key: Value) -> bool
        requires { IsGathered setting.now machine.now.store self.now }
        ensures { result ≡ is_some (place_in setting.now machine.now key self.now.entries) }
    {
        let content = self.content(machine, setting, key);
        self.place(machine, setting, key, &content).is_some()
    }

    /// The content of a key, if contents are at hand.
    fn content(&self, machine: &Machine, setting: &Setting, key: Value) -> Option<KeyContent>
        ensures { IfSome result (λ c. content_of (look machine.now.store setting.now.shelf) key_levels key ≡ Some c) }
    {
        if self.contents.is_none() {
            return None;
        }
        machine.key_content(setting, key)
    }

    /// The place of the entry with a key, which has this content.
    #[tactic(auto, unfolding(crate::specs::DictBuilder::IsGathered), using(crate::proofs::Gathering::placed_at))]
    fn place(
        &self,
        machine: &Machine,
        setting: &Setting,
        key: Value,
        content: &Option<KeyContent>,
    ) -> Option<usize>
        requires gathered { IsGathered setting.now machine.now.store self.now }
        requires content { IfSome content.now
            (λ c. content_of (look machine.now.store setting.now.shelf) key_levels key ≡ Some c) }
        ensures { result ≡ place_in setting.now machine.now key self.now.entries }
    {
        match (&self.contents, content) {
            (Some(contents), Some(content)) => contents.place(content),
            _ => machine.place_of(setting, key, &self.entries),
        }
    }

    /// Puts an entry after all others, whose key has this content.
    #[tactic(auto, unfolding(crate::specs::DictBuilder::IsGathered), using(crate::proofs::Gathering::pushed))]
    fn push(
        &mut self,
        machine: &Machine,
        setting: &Setting,
        entry: (Value, Value),
        content: Option<KeyContent>,
    ) -> Result<(), AllocError>
        requires gathered { IsGathered setting.now machine.now.store self.old }
        requires content { IfSome content (λ c. content_of (look machine.now.store setting.now.shelf) key_levels entry.0
            ≡ Some c) }
        ensures pushed { OnOk result (self.new.entries ≡ self.old.entries ++ entry ∷ []) }
        ensures gathered { OnOk result (IsGathered setting.now machine.now.store self.new) }
        ensures refused { OnErr result (self.new ≡ self.old) }
    {
        self.entries.push(entry.0, entry.1)?;
        if self.entries.len() == INDEX_FROM {
            self.contents = contents_of(machine, setting, &self.entries);
            return Ok(());
        }
        let keeps = match &mut self.contents {
            Some(contents) => add(contents, content),
            None => false,
        };
        if !keeps {
            self.contents = None;
        }
        Ok(())
    }
}

/// Adds a content, if there is one, and says whether it was added.
fn add(contents: &mut Contents, content: Option<KeyContent>) -> bool
    ensures added { OnTrue result (IfSome content (λ c. contents.new ≡ contents.old ++ c ∷ [])) }
    ensures there { OnTrue result (is_some content ≡ true) }
{
    match content {
        Some(content) => contents.push(content),
        None => false,
    }
}

/// The contents of the keys of entries, if each has one, none comes twice, and memory suffices.
fn contents_of(machine: &Machine, setting: &Setting, entries: &Entries) -> Option<Contents>
    ensures { IfSome result (λ contents. contents_of (look machine.now.store setting.now.shelf) entries.now
        ≡ map Some contents) }
{
    let mut contents = Contents::with_capacity(machine.alloc(), entries.len()).ok()?;
    for entry in entries.as_slice() {
        let content = machine.key_content(setting, entry.0)?;
        if !contents.push(content) {
            return None;
        }
    }
    Some(contents)
}
