//! The values of a module's globals, as JSON.

ghost use Rattle.std.specs.Prelude.{◌≡◌, ◌≤◌, [], IfOk, OnOk, is_some, map, not};
ghost use Rattle.std.specs.Option.{option_copied};
ghost use Rattle.std.specs.Prelude.{Option};
ghost use Rattle.serde_json.specs.Data.{Data, no_members, string};
ghost use Rattle.serde_json.specs.View.{view};
ghost use Rattle.star_report.specs.Shelf.{among_data, name_if, names_in, names_of, opaque_name, own_data, stored_data};
ghost use Rattle.star_store.specs.Store.{look};
ghost use Rattle.star_data.specs.Data.{data_of};
ghost use Rattle.star_meaning.specs.Module.{most_levels};
ghost use Rattle.star_scope.specs.Loads.{is_private};
ghost use Rattle.star_report.specs.Texts.{AddsNames, AddsText, AreTexts, IsTextFor, PutsText};
ghost use Rattle.star_report.specs.Values.{opaque_names, shown_values};

use serde_json::{Map, Value as Json};
use star_data::data::{Written, write_data};
use star_outcome::module::Body;
use star_store::arena::{Arena, Frozen, Homes};
use star_store::values::Value;
use star_text::Text;
use std::alloc::{AllocError, Global};

/// The largest number of levels of a value whose text was made.
pub(crate) const LEVELS: u32 = 400;

/// How many bytes more than its text the JSON of a global may have before it must move.
const SPARE: usize = 16;

/// The globals that are data, each with its JSON, and the names of the opaque ones.
#[derive(Drop)]
pub(crate) struct Values<'b> {
    pub values: Map<&'b str, Vec<u8>>,
    pub opaque: Vec<Json>,
}

impl<'b> Values<'b> {
    /// None yet.
    fn new(alloc: Global) -> Values<'b>
        ensures values { AreTexts result.values.entries no_members }
        ensures opaque { map view result.opaque.items ≡ [] }
    {
        Values {
            values: Map::new(alloc),
            opaque: Vec::new(alloc),
        }
    }

    /// Adds a global: its JSON, if it has one.
    fn add(&mut self, alloc: Global, name: &'b str, json: Option<Vec<u8>>) -> Result<(), AllocError>
        ensures values { PutsText json name.now self.old.values.entries self.new.values.entries result }
        ensures opaque { (d : Option Data) → IsTextFor d json → OnOk result
            (AddsNames (name_if (not (is_some d)) name.now) self.old.opaque.items self.new.opaque.items) }
    {
        match json {
            Some(json) => drop(self.values.insert(name, json)?),
            None => self.opaque.push(Json::try_from_str(alloc, name)?)?,
        }
        Ok(())
    }

    /// Adds a global by its name. Its JSON has about `room` bytes.
    fn add_global<'a>(
        &mut self,
        alloc: Global,
        arena: &'a Arena,
        homes: &'a Homes<'a>,
        own: Option<&'a Frozen>,
        name: &'b str,
        room: usize,
    ) -> Result<(), AllocError>
        ensures values { AddsText (own_data arena.now homes.now (option_copied own.entry)) name.now
            self.old.values.entries self.new.values.entries result }
        ensures opaque { OnOk result (AddsNames
            (opaque_name (own_data arena.now homes.now (option_copied own.entry)) name.now)
            self.old.opaque.items self.new.opaque.items) }
    {
        if is_private(name) {
            return Ok(());
        }
        let json = global_json(alloc, arena, homes, own, name, room)?;
        self.add(alloc, name, json)
    }
}

/// Whether a name begins with `_`.
pub(crate) fn is_private(name: &str) -> bool
    ensures { result ≡ is_private name.now }
{
    match name.as_bytes() {
        [first, ..] => *first == b'_',
        [] => false,
    }
}

/// The JSON of the global with a name; none if it has none. It has about `room` bytes.
fn global_json<'a>(
    alloc: Global,
    arena: &'a Arena,
    homes: &'a Homes<'a>,
    own: Option<&'a Frozen>,
    name: &str,
    room: usize,
) -> Result<Option<Vec<u8>>, AllocError>
    ensures { IfOk result (IsTextFor (own_data arena.now homes.now (option_copied own.entry) name.now)) }
{
    let Some(own) = own else {
        return Ok(None);
    };
    match own.global(name) {
        Some(value) => json_of(alloc, arena, homes, value, room),
        None => Ok(None),
    }
}

/// The JSON of a value; none if it has none. It has about `room` bytes. If it has more, it moves as it grows.
pub(crate) fn json_of<'a>(
    alloc: Global,
    arena: &'a Arena,
    homes: &'a Homes<'a>,
    value: Value,
    room: usize,
) -> Result<Option<Vec<u8>>, AllocError>
    ensures { IfOk result (IsTextFor (data_of (look arena.now homes.now) most_levels value)) }
{
    let Written { text, is_data } = write_data(
        alloc,
        arena,
        homes,
        LEVELS,
        value,
        Vec::with_capacity(alloc, room)?,
    )?;
    Ok(if is_data { Some(text) } else { None })
}

/// The public globals of a module, by their names.
fn values_of<'a, 'b>(
    alloc: Global,
    arena: &'a Arena,
    homes: &'a Homes<'a>,
    own: Option<&'a Frozen>,
    shown: &'b [(String, Text)],
) -> Result<Values<'b>, AllocError>
    ensures values { IfOk result (λ v. AreTexts v.values.entries
        (shown_values (own_data arena.now homes.now (option_copied own.entry)) (names_in shown.now))) }
    ensures opaque { IfOk result (λ v. map view v.opaque.items
        ≡ map string (opaque_names (own_data arena.now homes.now (option_copied own.entry)) (names_in shown.now))) }
{
    let mut all = Values::new(alloc);
    for global in shown {
        let room = global.1.as_str().len().saturating_add(SPARE);
        all.add_global(alloc, arena, homes, own, global.0.as_str(), room)?;
    }
    Ok(all)
}

/// The same for the file with this number, whose store is among others.
fn values_among<'b>(
    alloc: Global,
    arena: &Arena,
    homes: &Homes,
    n: usize,
    shown: &'b [(String, Text)],
) -> Result<Values<'b>, AllocError>
    ensures values { IfOk result (λ v. AreTexts v.values.entries
        (shown_values (among_data arena.now homes.now n) (names_in shown.now))) }
    ensures opaque { IfOk result (λ v. map view v.opaque.items
        ≡ map string (opaque_names (among_data arena.now homes.now n) (names_in shown.now))) }
{
    values_of(alloc, arena, homes, homes.published(n), shown)
}

/// The members of the globals as data, by the stores of a module.
pub(crate) fn members_of<'b>(
    alloc: Global,
    files: usize,
    n: usize,
    body: &'b Body,
) -> Result<Values<'b>, AllocError>
    requires { files ≤ 10000 }
    ensures values { IfOk result (λ v. AreTexts v.values.entries
        (shown_values (stored_data files n body.now) (names_of body.now))) }
    ensures opaque { IfOk result (λ v. map view v.opaque.items
        ≡ map string (opaque_names (stored_data files n body.now) (names_of body.now))) }
{
    let homes = body.stores.homes(alloc)?;
    let arena = Arena::new(alloc, files as u32);
    values_among(alloc, &arena, &homes, n, body.shown.globals())
}
