//! `Shown`: the globals of a module with their texts, and these as JSON.

ghost use Rattle.std.specs.Prelude.{◌≡◌, IfOk, OnOk, fold, string_bytes};
ghost use Rattle.serde_json.specs.Data.{no_members};
ghost use Rattle.serde_json.specs.View.{members_view};
ghost use Rattle.serde_json.specs.Written.{compact_text};
ghost use Rattle.star_outcome.specs.Globals.{shown_texts};
ghost use Rattle.star_plan.specs.Text.{globals_data, with_global};

use serde_json::{Map, Value};
use star_text::Text;
use std::alloc::{AllocError, Global};
use std::marker::Model;

/// The globals that a good run leaves, each with its text, in byte order of the names. Also their JSON, which is written
/// once, as the run ends: each report of the module has it.
pub struct Shown {
    globals: Vec<(String, Text)>,
    json: Vec<u8>,
}

impl Drop for Shown {
    fn drop(self) {
        let Shown {
            globals: _,
            json: _,
        } = self;
    }
}

impl Model for Shown {
    ghost use Rattle.std.specs.Prelude.{◌≡◌, ℕ, List};
    ghost use Rattle.serde_json.specs.Written.{compact_text};
    ghost use Rattle.star_outcome.specs.Globals.{shown_texts};
    ghost use Rattle.star_plan.specs.Text.{globals_data};

    ghost Value = { List (List ℕ × List ℕ) };

    ghost view = { λ s. shown_texts s.globals.items };

    ghost invariant = { λ s. s.json.items ≡ compact_text (globals_data (shown_texts s.globals.items)) };
}

/// Adds the name of a global with its text.
fn put_global(
    members: &mut Map<String, Value>,
    alloc: Global,
    global: &(String, Text),
) -> Result<(), AllocError>
    ensures { OnOk result (members_view members.new.entries
        ≡ with_global (members_view members.old.entries) (string_bytes global.now.0, global.now.1)) }
{
    let text = Value::try_from_str(alloc, global.1.as_str())?;
    serde_json::put(members, alloc, global.0.as_str(), text)?;
    Ok(())
}

/// The name of each global with its text.
fn global_texts(alloc: Global, globals: &[(String, Text)]) -> Result<Map<String, Value>, AllocError>
    ensures { IfOk result (λ m. members_view m.entries ≡ fold with_global no_members (shown_texts globals.now)) }
{
    let mut members = Map::new(alloc);
    for global in globals {
        put_global(&mut members, alloc, global)?;
    }
    Ok(members)
}

/// The JSON of globals with their texts.
fn json_of(alloc: Global, globals: &[(String, Text)]) -> Result<Vec<u8>, AllocError>
    ensures { IfOk result (λ json. json.items ≡ compact_text (globals_data (shown_texts globals.now))) }
{
    Value::Object(global_texts(alloc, globals)?).to_vec(alloc)
}

impl Shown {
    /// These globals. The error: an allocation failed.
    pub fn new(alloc: Global, globals: Vec<(String, Text)>) -> Result<Shown, AllocError>
        ensures { IfOk result (λ s. s ≡ shown_texts globals.items) }
    {
        let json = json_of(alloc, globals.as_slice())?;
        Ok(Shown { globals, json })
    }

    /// The globals, each with its text.
    pub fn globals(&self) -> &[(String, Text)]
        ensures { shown_texts result.now ≡ self.now }
    {
        self.globals.as_slice()
    }

    /// Their JSON: an object of the texts by the names.
    pub fn json(&self) -> &[u8]
        ensures { result.now ≡ compact_text (globals_data self.now) }
    {
        self.json.as_slice()
    }

    /// The texts by the names, as the members of a JSON object. The error: an allocation failed.
    pub fn members(&self, alloc: Global) -> Result<Map<String, Value>, AllocError>
        ensures { IfOk result (λ m. members_view m.entries ≡ fold with_global no_members self.now) }
    {
        global_texts(alloc, self.globals.as_slice())
    }
}
