//! The text of a module with its further members.

ghost use Rattle.std.specs.Prelude.{◌≡◌, ◌<◌, ◌++◌, ◌∷◌, [], false, All, IfOk, codes, filter, is_some, length, map};
ghost use Rattle.json.specs.Print.{quoted};
ghost use Rattle.serde_json.specs.Data.{Data};
ghost use Rattle.serde_json.specs.View.{view};
ghost use Rattle.serde_json.specs.Written.{comma_if};
ghost use Rattle.star_report.specs.Shelf.{loads_part, more_of, steps_part, stored_members};
ghost use Rattle.star_report.specs.Shown.{IsShown};
ghost use Rattle.star_report.specs.Texts.{EndsIn, IsDataText, IsTextWith, joined_members};
ghost use Rattle.star_report.specs.Wanted.{added, load_member, put_in};
ghost use Rattle.star_cause.specs.Ways.{Nexts};

use crate::values::{Values, members_of};
use crate::wanted::Wanted;
use json::Writer;
use serde_json::{Map, Value as Json, json};
use star_label::files::Files as Labels;
use star_outcome::module::{Body, Ended, Module};
use star_scope::loads::Load;
use std::alloc::{AllocError, Global};

/// An object with one more member. Other JSON stays as it is.
fn with_member(alloc: Global, shown: Json, key: &str, json: Json) -> Result<Json, AllocError>
    ensures { IfOk result (λ v. view v ≡ put_in key.now (view json) (view shown)) }
{
    match shown {
        Json::Object(mut members) => {
            serde_json::put(&mut members, alloc, key, json)?;
            Ok(Json::Object(members))
        }
        other => Ok(other),
    }
}

/// A load as JSON: the label of its file, and its line.
fn load_json(alloc: Global, files: &Labels, load: &Load) -> Result<Json, AllocError>
    requires { load.now.file < length files.now }
    ensures { IfOk result (λ v. view v ≡ load_member files.now load.now) }
{
    let label = files.label(load.file).text();
    json!(in alloc; {"label": label, "line": load.line as u64})
}

/// The loads of load statements, in order. The load of the prelude has no statement.
fn loads_json(alloc: Global, files: &Labels, loads: &[Load]) -> Result<Vec<Json>, AllocError>
    requires { All (λ l. l.file < length files.now) loads.now }
    ensures { IfOk result (λ v. map view v.items
        ≡ map (load_member files.now) (filter (λ l. is_some l.token) loads.now)) }
{
    let mut all = Vec::new(alloc);
    for load in loads {
        if load.token.is_some() {
            all.push(load_json(alloc, files, load)?)?;
        }
    }
    Ok(all)
}

/// A module with its loads, if they are wanted.
fn with_loads(
    alloc: Global,
    files: &Labels,
    loads: &[Load],
    wanted: Wanted,
    shown: Json,
) -> Result<Json, AllocError>
    requires { All (λ l. l.file < length files.now) loads.now }
    ensures { IfOk result (λ v. view v ≡ added (loads_part wanted files.now loads.now) (view shown)) }
{
    if !wanted.loads {
        return Ok(shown);
    }
    let loads = loads_json(alloc, files, loads)?;
    with_member(alloc, shown, "loads", Json::Array(loads))
}

/// A module with the steps that it has paid, if they are wanted and it is ok.
fn with_steps(alloc: Global, wanted: Wanted, ended: &Ended, shown: Json) -> Result<Json, AllocError>
    ensures { IfOk result (λ v. view v ≡ added (steps_part wanted ended.now) (view shown)) }
{
    match ended {
        Ended::Good(body) if wanted.steps => {
            with_member(alloc, shown, "steps", Json::from(body.paid as u64))
        }
        _ => Ok(shown),
    }
}

/// Adds a comma to a text, unless it is at its first item.
fn with_comma(text: Vec<u8>, later: bool) -> Result<Vec<u8>, AllocError>
    ensures { IfOk result (λ t. t.items ≡ text.items ++ comma_if later) }
{
    let mut text = text;
    if later {
        text.push(b',')?;
    }
    Ok(text)
}

/// The text of a name with its colon.
fn key_text(alloc: Global, name: &str) -> Result<Vec<u8>, AllocError>
    ensures { IfOk result (λ t. t.items ≡ quoted name.now ++ 58 ∷ []) }
{
    let mut out = Writer::new(Vec::new(alloc));
    out.key(name)?;
    Ok(out.into_inner())
}

/// Adds a name with its colon to a text. The name is written apart, since a writer first fills much of the room after
/// its text.
fn with_key(alloc: Global, text: Vec<u8>, name: &str) -> Result<Vec<u8>, AllocError>
    ensures { IfOk result (λ t. t.items ≡ text.items ++ (quoted name.now ++ 58 ∷ [])) }
{
    let mut text = text;
    let named = key_text(alloc, name)?;
    text.extend_from_slice(named.as_slice())?;
    Ok(text)
}

/// Adds one more member to the text of an object, by its JSON.
fn with_text(
    alloc: Global,
    text: Vec<u8>,
    later: bool,
    name: &str,
    json: &[u8],
) -> Result<Vec<u8>, AllocError>
    ensures { IfOk result (λ t. t.items ≡ text.items ++ (comma_if later ++ (quoted name.now ++ 58 ∷ json.now))) }
{
    let text = with_comma(text, later)?;
    let mut text = with_key(alloc, text, name)?;
    text.extend_from_slice(json)?;
    Ok(text)
}

/// Adds the object of these members to a text, each by its JSON.
fn with_object(
    alloc: Global,
    text: Vec<u8>,
    members: &Map<&str, Vec<u8>>,
) -> Result<Vec<u8>, AllocError>
    ensures { IfOk result (λ t. t.items ≡ text.items ++ 123 ∷ joined_members false members.now.entries) }
{
    let mut text = text;
    let mut later = false;
    text.push(b'{')?;
    for (name, json) in members.iter() {
        text = with_text(alloc, text, later, *name, json.as_slice())?;
        later = true;
    }
    text.push(b'}')?;
    Ok(text)
}

/// The text of an object with one more member, the last, which is itself an object of these members.
fn with_last(
    alloc: Global,
    shown: &Json,
    name: &str,
    members: &Map<&str, Vec<u8>>,
) -> Result<Vec<u8>, AllocError>
    requires { EndsIn name.now (view shown.now) }
    ensures { IfOk result (λ t. IsTextWith (view shown.now) name.now members.now.entries t.items) }
{
    let mut text = shown.to_vec(alloc)?;
    text.pop();
    text.push(b',')?;
    let text = with_key(alloc, text, name)?;
    let mut text = with_object(alloc, text, members)?;
    text.push(b'}')?;
    Ok(text)
}

/// The text of a module with the values of its globals and the names of the opaque ones.
fn text_with_values(
    alloc: Global,
    files: &Labels,
    n: usize,
    body: &Body,
    shown: Json,
) -> Result<Vec<u8>, AllocError>
    requires { (d : Data) → EndsIn (codes "values") (put_in (codes "opaque") d (view shown)) }
    ensures { IfOk result (λ t.
        IsDataText (added (stored_members (length files.now) n body.now) (view shown)) t.items) }
{
    let Values { values, opaque } = members_of(alloc, files.len(), n, body)?;
    let shown = with_member(alloc, shown, "opaque", Json::Array(opaque))?;
    with_last(alloc, &shown, "values", &values)
}

/// The text of a module with its further members.
pub(crate) fn text_with_more(
    alloc: Global,
    files: &Labels,
    loads: &[Load],
    wanted: Wanted,
    it: &Module,
    shown: Json,
) -> Result<Vec<u8>, AllocError>
    requires loads { All (λ l. l.file < length files.now) loads.now }
    requires shown { (nexts : Nexts) × IsShown files.now nexts it.now.number it.now.ended (view shown) }
    ensures { IfOk result (λ t.
        IsDataText (added (more_of wanted files.now loads.now it.now) (view shown)) t.items) }
{
    let shown = with_loads(alloc, files, loads, wanted, shown)?;
    let shown = with_steps(alloc, wanted, &it.ended, shown)?;
    match &it.ended {
        Ended::Good(body) if wanted.values => {
            text_with_values(alloc, files, it.number, body, shown)
        }
        _ => shown.to_vec(alloc),
    }
}
