//! `json.decode`, of the extended language.
//!
//! The text is read as a whole first, by the reader of `json`: it takes no more memory than the bytes that were paid for
//! allow. Then its value is built.

ghost use Rattle.std.specs.Prelude.{◌≡◌, ◌∷◌, [], IfOk, OnOk, option_map};
ghost use Rattle.std.specs.List.{list_any};
ghost use Rattle.json.specs.Value.{items_view, members_view, value_view};
ghost use Rattle.star_outline.specs.Names.{same_name};
ghost use Rattle.star_meaning.specs.declared.fault.FaultCode.TheVariants as code;
ghost use Rattle.star_meaning.specs.Json as spec;
ghost use Rattle.star_meaning.specs.Run.{and_then, found};
ghost use Rattle.star_meaning.specs.Spelling.{spelled};
ghost use Rattle.star_meaning.specs.Values.{new_int};
ghost use Rattle.star_machine.specs.Refines.{Refines};
ghost use Rattle.star_builtin.specs.Parts as part;

use crate::spelling::spelled;
use json::{Error, Reader, Scratch, Value as Json};
use star_machine::call::Call;
use star_machine::fault::{EvalError, fault_at};
use star_machine::machine::Machine;
use star_meaning::fault::FaultCode;
use star_store::values::{Entries, Value, Values};
use star_text::Text;
use std::alloc::{AllocError, Global};
use std::collections::BTreeMap;
use std::marker::Model;

/// The most arrays and objects within each other.
const MOST_DEEP: usize = 400;

/// The JSON that a text is; `None` if it is none, or nests too deep. The error: an allocation failed.
fn document<'a>(
    alloc: Global,
    text: &'a str,
    scratch: &'a mut Scratch,
) -> Result<Option<Json<'a>>, AllocError>
    ensures { IfOk result (λ made. option_map value_view made ≡ spec.document text.now) }
{
    let mut reader = Reader::new(text, scratch)?;
    let read = match Json::read(alloc, &mut reader, MOST_DEEP) {
        Ok(read) => read,
        Err(Error::Invalid) => return Ok(None),
        Err(_memory) => return Err(AllocError),
    };
    if reader.next().is_some() {
        return Ok(None);
    }
    Ok(Some(read))
}

/// The int that a number writes. `BadValue` if it has a fraction or an exponent, `Overflow` outside 64 bits.
fn number(machine: &Machine, line: usize, text: &str) -> Result<Value, EvalError>
    ensures { Refines (and_then (found code.BadValue line (spelled text.now) machine.now) (new_int line)) result
        machine.now }
{
    match spelled(text.as_bytes()) {
        Some(number) => machine.new_int(line, number),
        None => Err(fault_at(FaultCode::BadValue, line)),
    }
}

/// The names of an object so far. Contracts see them as a list, the last name first.
#[derive(Drop)]
struct Names<'a> {
    all: Vec<&'a str>,
    found: BTreeMap<&'a str, ()>,
}

impl<'a> Model for Names<'a> {
    ghost use Rattle.std.specs.Prelude.{List, ℕ};
    ghost use Rattle.star_builtin.specs.Decoding.{HaveNames, back};

    ghost Value = { List (List ℕ) };

    ghost view = { λ n. back n.all.items };

    ghost invariant = { λ n. HaveNames n.found (back n.all.items) };
}

impl<'a> Names<'a> {
    /// No name yet.
    fn new(alloc: Global) -> Names<'a>
        ensures { result ≡ [] }
    {
        Names {
            all: Vec::new(alloc),
            found: BTreeMap::new(alloc),
        }
    }

    /// Whether a name is there.
    fn has(&self, name: &str) -> bool
        ensures { result ≡ list_any (same_name name.now) self.now }
    {
        self.found.contains_key(name)
    }

    /// Adds a name.
    #[tactic(auto, using(crate::proofs::NewNames::added, crate::proofs::NewNames::have_more))]
    fn add(&mut self, name: &'a str) -> Result<(), AllocError>
        ensures { OnOk result (self.new ≡ name.now ∷ self.old) }
    {
        self.all.reserve(1)?;
        self.found.insert(name, ())?;
        self.all.push_reserved(name);
        Ok(())
    }
}

/// A name as a new string. `Key` if it is among those before it; else it is from then on.
fn new_name<'a>(
    machine: &mut Machine,
    line: usize,
    before: &mut Names<'a>,
    name: &'a str,
) -> Result<Value, EvalError>
    ensures answer { Refines (part.new_name line before.old name.now machine.old) result machine.new }
    ensures before { OnOk result (before.new ≡ name.now ∷ before.old) }
{
    let text = Text::new(machine.alloc(), name)?;
    let key = machine.new_text(line, text)?;
    if before.has(name) {
        return Err(fault_at(FaultCode::Key, line));
    }
    before.add(name)?;
    Ok(key)
}

/// The values of items.
#[cycle(decode)]
fn items_of(
    machine: &mut Machine,
    line: usize,
    levels: u32,
    items: &[Json<'_>],
) -> Result<Values, EvalError>
    ensures { Refines (spec.decoded_items (spec.decoded line levels) (items_view items.now) machine.old) result
        machine.new }
{
    let mut values = Vec::with_capacity(machine.alloc(), items.len())?;
    for item in items {
        values.push(decoded(machine, line, levels, item)?)?;
    }
    Ok(Values::new(values))
}

/// The entries of members. `Key` for a name that comes again.
#[cycle(decode)]
fn entries_of<'a>(
    machine: &mut Machine,
    line: usize,
    levels: u32,
    members: &[(&'a str, Json<'a>)],
) -> Result<Entries, EvalError>
    ensures { Refines (spec.decoded_members line (spec.decoded line levels) [] (members_view members.now) machine.old)
        result machine.new }
{
    let mut before = Names::new(machine.alloc());
    let mut entries = Entries::with_capacity(machine.alloc(), members.len())?;
    for member in members {
        let key = new_name(machine, line, &mut before, member.0)?;
        let value = decoded(machine, line, levels, &member.1)?;
        entries.push(key, value)?;
    }
    Ok(entries)
}

#[cycle(decode)]
fn built(
    machine: &mut Machine,
    line: usize,
    levels: u32,
    read: &Json<'_>,
) -> Result<Value, EvalError>
    ensures { Refines (spec.built line (spec.decoded line levels) (value_view read.now) machine.old) result
        machine.new }
{
    match read {
        Json::Null => Ok(Value::NoneValue),
        Json::Bool(truth) => Ok(Value::Bool(*truth)),
        Json::Number(text) => number(machine, line, *text),
        Json::String(text) => {
            let text = Text::new(machine.alloc(), *text)?;
            machine.new_text(line, text)
        }
        Json::Array(items) => {
            let items = items_of(machine, line, levels, items.as_slice())?;
            machine.new_list(line, items)
        }
        Json::Object(members) => {
            let entries = entries_of(machine, line, levels, members.as_slice())?;
            machine.new_dict(line, entries)
        }
    }
}

/// The value of JSON: each value in it is a visit, which opens a level (else `Deep`) and pays a step.
#[cycle(decode)]
#[tactic(auto, unfolding(star_meaning::specs::Json::decoded))]
fn decoded(
    machine: &mut Machine,
    line: usize,
    levels: u32,
    read: &Json<'_>,
) -> Result<Value, EvalError>
    ensures { Refines (spec.decoded line levels (value_view read.now) machine.old) result machine.new }
{
    if levels == 0 {
        return Err(fault_at(FaultCode::Deep, line));
    }
    machine.pay_one(line)?;
    built(machine, line, levels - 1, read)
}

/// `json.decode(s)`: the value that the JSON of a string stands for. Its bytes are paid. `Args` for another number of
/// values and for a keyword argument, `BadType` unless it is a string, `BadValue` if it is no JSON, nests too deep, or
/// has a number with a fraction or an exponent, `Key` if a name comes twice in an object.
pub fn call_decode(machine: &mut Machine, call: &Call) -> Result<Value, EvalError>
    ensures { Refines (spec.call_decode call.now.setting.now call.now.levels call.now.line call.now.given.now
        machine.old) result machine.new }
{
    let value = call.only_one(machine)?;
    let text = machine.want_text(call.setting, call.line, value)?.share()?;
    machine.pay(call.line, text.as_str().len() as u128)?;
    let mut scratch = Scratch::new(machine.alloc());
    match document(machine.alloc(), text.as_str(), &mut scratch)? {
        Some(read) => decoded(machine, call.line, call.levels, &read),
        None => Err(fault_at(FaultCode::BadValue, call.line)),
    }
}
