//! `write_data`: writes the JSON of a value after a text, or finds that it has none.

ghost use Rattle.std.specs.Prelude.{◌≡◌, ◌-◌, IfOk, IfSome, None, OnOk, Some, if◌then◌else◌, map, take, vec_len};
ghost use Rattle.std.specs.Option.{option_copied, option_map};
ghost use Rattle.serde_json.specs.Data.{array, object, string};
ghost use Rattle.star_store.specs.Fields.{values_of};
ghost use Rattle.star_store.specs.Store.{look};
ghost use Rattle.star_store.specs.Text.{on_path, same_address};
ghost use Rattle.star_data.specs.Data.{cell_data, cell_of, data_of, entries_data, fields_data, int_data, items_data, key_in, utf8_of};
ghost use Rattle.star_data.specs.Texts.{IsJson, Says, Sends, row_data};
ghost use Rattle.star_store.specs.declared.values.Cell.TheVariants as cell;
ghost use Rattle.star_data.specs.Paths.{AllStandInEach, StandsInEach};
ghost use Rattle.star_data.specs.Rows.{IsRowOf, put_new};
ghost use Rattle.star_data.specs.Stores.{look_in};

use json::Writer;
use star_store::arena::{Arena, Homes};
use star_store::fields::Fields;
use star_store::values::{Cell, Value};
use std::alloc::{AllocError, Global};
use std::cmp::Ordering;
use std::collections::BTreeMap;

/// A text, and whether the JSON of a value was written after it.
#[derive(Drop)]
pub struct Written {
    pub text: Vec<u8>,
    pub is_data: bool,
}

/// The cells of the run whose value is written, and the published ones.
#[derive(Drop)]
struct Stores<'a> {
    arena: &'a Arena,
    homes: &'a Homes<'a>,
}

/// The text, and after it the JSON of a value that nests less deep than `levels`: None, bools, ints and strings, lists,
/// tuples and sets as arrays, structs and dictionaries whose keys are all strings as objects, with their members in
/// byte order. The text alone for a value that contains anything else, or itself.
///
/// It visits no more than the text of the value does.
pub fn write_data<'a>(
    alloc: Global,
    arena: &'a Arena,
    homes: &'a Homes<'a>,
    levels: u32,
    value: Value,
    text: Vec<u8>,
) -> Result<Written, AllocError>
    ensures { IfOk result (λ w. IsJson (data_of (look arena.now homes.now) levels value) text.items
        w.is_data w.text.items) }
{
    let stores = Stores { arena, homes };
    let before = text.len();
    let mut path = Vec::new(alloc);
    let mut out = Writer::new(text);
    let is_data = write_value(alloc, &stores, levels, &mut path, value, &mut out)?;
    let mut text = out.into_inner();
    if !is_data {
        text.truncate(before);
    }
    Ok(Written { text, is_data })
}

/// The largest number of entries of a dictionary whose members are put in order in a plain row. There each is moved at
/// most once for each other.
const MAP_ABOVE: usize = 16;

/// Whether a value is data.
#[cycle(write)]
fn is_data<'a>(
    alloc: Global,
    stores: &Stores<'a>,
    levels: u32,
    path: &mut Vec<Value>,
    value: Value,
) -> Result<bool, AllocError>
    requires { StandsInEach (look_in stores.now) path.old.items value }
    ensures data { IfOk result (Says (data_of (look_in stores.now) levels value)) }
    ensures path { OnOk result (path.new.items ≡ path.old.items) }
{
    let mut out = Writer::new(Vec::new(alloc));
    write_value(alloc, stores, levels, path, value, &mut out)
}

/// An int is data: it has 64 bits.
fn write_int(number: i64, out: &mut Writer) -> Result<bool, AllocError>
    ensures data { IfOk result (λ b. Sends (int_data number) b out.old.tokens out.new.tokens) }
    ensures before { out.new.before ≡ out.old.before }
{
    out.i64(number)?;
    Ok(true)
}

/// A string is data: it is UTF-8.
fn write_text(text: &str, out: &mut Writer) -> Result<bool, AllocError>
    ensures data { IfOk result (λ b. Sends (option_map string (utf8_of text.now)) b out.old.tokens out.new.tokens) }
    ensures before { out.new.before ≡ out.old.before }
{
    out.string(text)?;
    Ok(true)
}

#[cycle(write)]
fn write_value<'a>(
    alloc: Global,
    stores: &Stores<'a>,
    levels: u32,
    path: &mut Vec<Value>,
    value: Value,
    out: &mut Writer,
) -> Result<bool, AllocError>
    requires { StandsInEach (look_in stores.now) path.old.items value }
    ensures data { IfOk result (λ b. Sends (data_of (look_in stores.now) levels value) b out.old.tokens
        out.new.tokens) }
    ensures path { OnOk result (path.new.items ≡ path.old.items) }
    ensures before { out.new.before ≡ out.old.before }
{
    if levels == 0 {
        return Ok(false);
    }
    match value {
        Value::NoneValue => {
            out.null()?;
            Ok(true)
        }
        Value::Bool(truth) => {
            out.boolean(truth)?;
            Ok(true)
        }
        Value::Int(number) => write_int(number, out),
        Value::Builtin(_) => Ok(false),
        Value::Ref { .. } => {
            let cell = stores.arena.read(stores.homes, value);
            write_cell(alloc, stores, levels - 1, path, value, cell, out)
        }
    }
}

#[cycle(write)]
fn write_cell<'a>(
    alloc: Global,
    stores: &Stores<'a>,
    levels: u32,
    path: &mut Vec<Value>,
    value: Value,
    cell: Option<&'a Cell>,
    out: &mut Writer,
) -> Result<bool, AllocError>
    requires path { StandsInEach (look_in stores.now) path.old.items value }
    requires cell { option_copied cell ≡ cell_of (look_in stores.now) value }
    // It is long since the definition takes the stores twice.
    ensures data { IfOk result (λ b. Sends
        (cell_data (look_in stores.now) (data_of (look_in stores.now) levels) (option_copied cell.entry)) b
        out.old.tokens out.new.tokens) }
    ensures path { OnOk result (path.new.items ≡ path.old.items) }
    ensures before { out.new.before ≡ out.old.before }
{
    match cell {
        Some(Cell::Text(text)) => write_text(text.as_str(), out),
        Some(Cell::Tuple(items)) => {
            write_items(alloc, stores, levels, path, items.as_slice(), out)
        }
        Some(Cell::List(items)) => {
            write_list(alloc, stores, levels, path, value, items.as_slice(), out)
        }
        Some(Cell::Dict(entries)) => {
            write_dict(alloc, stores, levels, path, value, entries.as_slice(), out)
        }
        Some(Cell::Struct(fields)) => {
            write_struct(alloc, stores, levels, path, fields.get(), out)
        }
        Some(Cell::Set(elements)) => {
            write_set(alloc, stores, levels, path, elements.as_slice(), out)
        }
        _ => Ok(false),
    }
}

/// A list that contains itself is not data.
#[cycle(write)]
fn write_list<'a>(
    alloc: Global,
    stores: &Stores<'a>,
    levels: u32,
    path: &mut Vec<Value>,
    value: Value,
    items: &'a [Value],
    out: &mut Writer,
) -> Result<bool, AllocError>
    requires path { StandsInEach (look_in stores.now) path.old.items value }
    requires cell { cell_of (look_in stores.now) value ≡ Some (cell.List items.now) }
    ensures data { IfOk result (λ b. Sends
        (option_map array (items_data (data_of (look_in stores.now) levels) items.now)) b
        out.old.tokens out.new.tokens) }
    ensures path { OnOk result (path.new.items ≡ path.old.items) }
    ensures before { out.new.before ≡ out.old.before }
{
    if is_within(path, value) {
        return Ok(false);
    }
    path.push(value)?;
    let is_data = write_items(alloc, stores, levels, path, items, out)?;
    leave(path);
    Ok(is_data)
}

/// Nor is a dictionary.
#[cycle(write)]
fn write_dict<'a>(
    alloc: Global,
    stores: &Stores<'a>,
    levels: u32,
    path: &mut Vec<Value>,
    value: Value,
    entries: &'a [(Value, Value)],
    out: &mut Writer,
) -> Result<bool, AllocError>
    requires path { StandsInEach (look_in stores.now) path.old.items value }
    requires cell { cell_of (look_in stores.now) value ≡ Some (cell.Dict entries.now) }
    // It is long since the definition takes the stores twice.
    ensures data { IfOk result (λ b. Sends
        (option_map object
        (entries_data (look_in stores.now) (data_of (look_in stores.now) levels) entries.now)) b
        out.old.tokens out.new.tokens) }
    ensures path { OnOk result (path.new.items ≡ path.old.items) }
    ensures before { out.new.before ≡ out.old.before }
{
    if is_within(path, value) {
        return Ok(false);
    }
    path.push(value)?;
    let is_data = write_entries(alloc, stores, levels, path, entries, out)?;
    leave(path);
    Ok(is_data)
}

#[cycle(write)]
fn write_items<'a>(
    alloc: Global,
    stores: &Stores<'a>,
    levels: u32,
    path: &mut Vec<Value>,
    items: &'a [Value],
    out: &mut Writer,
) -> Result<bool, AllocError>
    requires { AllStandInEach (look_in stores.now) path.old.items items.now }
    ensures data { IfOk result (λ b. Sends
        (option_map array (items_data (data_of (look_in stores.now) levels) items.now)) b
        out.old.tokens out.new.tokens) }
    ensures path { OnOk result (path.new.items ≡ path.old.items) }
    ensures before { out.new.before ≡ out.old.before }
{
    out.begin_array()?;
    for item in items {
        if !write_value(alloc, stores, levels, path, *item, out)? {
            return Ok(false);
        }
    }
    out.end_array()?;
    Ok(true)
}

/// The elements of a set, in their order. None of them can contain the set.
#[cycle(write)]
fn write_set<'a>(
    alloc: Global,
    stores: &Stores<'a>,
    levels: u32,
    path: &mut Vec<Value>,
    elements: &'a [(Value, Value)],
    out: &mut Writer,
) -> Result<bool, AllocError>
    requires { AllStandInEach (look_in stores.now) path.old.items (map (λ e. e.0) elements.now) }
    ensures data { IfOk result (λ b. Sends
        (option_map array (items_data (data_of (look_in stores.now) levels) (map (λ e. e.0) elements.now))) b
        out.old.tokens out.new.tokens) }
    ensures path { OnOk result (path.new.items ≡ path.old.items) }
    ensures before { out.new.before ≡ out.old.before }
{
    out.begin_array()?;
    for element in elements {
        if !write_value(alloc, stores, levels, path, element.0, out)? {
            return Ok(false);
        }
    }
    out.end_array()?;
    Ok(true)
}

/// The members of a struct are in byte order already.
#[cycle(write)]
fn write_struct<'a>(
    alloc: Global,
    stores: &Stores<'a>,
    levels: u32,
    path: &mut Vec<Value>,
    fields: &'a Fields,
    out: &mut Writer,
) -> Result<bool, AllocError>
    requires { AllStandInEach (look_in stores.now) path.old.items (values_of fields.now) }
    ensures data { IfOk result (λ b. Sends
        (option_map object (fields_data (data_of (look_in stores.now) levels) fields.now)) b
        out.old.tokens out.new.tokens) }
    ensures path { OnOk result (path.new.items ≡ path.old.items) }
    ensures before { out.new.before ≡ out.old.before }
{
    out.begin_object()?;
    for i in 0..fields.len() {
        let Some((name, value)) = fields.at(i) else {
            return Ok(false);
        };
        out.key(name.as_str())?;
        if !write_value(alloc, stores, levels, path, value, out)? {
            return Ok(false);
        }
    }
    out.end_object()?;
    Ok(true)
}

#[cycle(write)]
fn write_entries<'a>(
    alloc: Global,
    stores: &Stores<'a>,
    levels: u32,
    path: &mut Vec<Value>,
    entries: &'a [(Value, Value)],
    out: &mut Writer,
) -> Result<bool, AllocError>
    requires { AllStandInEach (look_in stores.now) path.old.items (map (λ e. e.1) entries.now) }
    // It is long since the definition takes the stores twice.
    ensures data { IfOk result (λ b. Sends
        (option_map object
        (entries_data (look_in stores.now) (data_of (look_in stores.now) levels) entries.now)) b
        out.old.tokens out.new.tokens) }
    ensures path { OnOk result (path.new.items ≡ path.old.items) }
    ensures before { out.new.before ≡ out.old.before }
{
    if entries.len() <= MAP_ABOVE {
        let row = few_members(alloc, stores, entries)?;
        if let Some(row) = row {
            return write_row(alloc, stores, levels, path, &row, out);
        }
    }
    write_many(alloc, stores, levels, path, entries, out)
}

/// The same with a map, for any number of entries, and for a key that occurs twice.
#[cycle(write)]
fn write_many<'a>(
    alloc: Global,
    stores: &Stores<'a>,
    levels: u32,
    path: &mut Vec<Value>,
    entries: &'a [(Value, Value)],
    out: &mut Writer,
) -> Result<bool, AllocError>
    requires { AllStandInEach (look_in stores.now) path.old.items (map (λ e. e.1) entries.now) }
    // It is long since the definition takes the stores twice.
    ensures data { IfOk result (λ b. Sends
        (option_map object
        (entries_data (look_in stores.now) (data_of (look_in stores.now) levels) entries.now)) b
        out.old.tokens out.new.tokens) }
    ensures path { OnOk result (path.new.items ≡ path.old.items) }
    ensures before { out.new.before ≡ out.old.before }
{
    let mut members = BTreeMap::new(alloc);
    for i in (0..entries.len()).rev() {
        let Some(key) = text_at(stores, entries[i].0) else {
            return Ok(false);
        };
        let hidden = members.insert(key, entries[i].1)?;
        if let Some(hidden) = hidden {
            if !is_data(alloc, stores, levels, path, hidden)? {
                return Ok(false);
            }
        }
    }
    write_members(alloc, stores, levels, path, &members, out)
}

#[cycle(write)]
fn write_members<'a>(
    alloc: Global,
    stores: &Stores<'a>,
    levels: u32,
    path: &mut Vec<Value>,
    members: &BTreeMap<&'a str, Value>,
    out: &mut Writer,
) -> Result<bool, AllocError>
    requires { AllStandInEach (look_in stores.now) path.old.items (map (λ e. e.1) members.now.entries) }
    ensures data { IfOk result (λ b. Sends
        (option_map object (row_data (data_of (look_in stores.now) levels) members.now.entries)) b
        out.old.tokens out.new.tokens) }
    ensures path { OnOk result (path.new.items ≡ path.old.items) }
    ensures before { out.new.before ≡ out.old.before }
{
    out.begin_object()?;
    for (key, value) in members.iter() {
        out.key(*key)?;
        if !write_value(alloc, stores, levels, path, *value, out)? {
            return Ok(false);
        }
    }
    out.end_object()?;
    Ok(true)
}

#[cycle(write)]
fn write_row<'a>(
    alloc: Global,
    stores: &Stores<'a>,
    levels: u32,
    path: &mut Vec<Value>,
    row: &[(&'a str, Value)],
    out: &mut Writer,
) -> Result<bool, AllocError>
    requires { AllStandInEach (look_in stores.now) path.old.items (map (λ e. e.1) row.now) }
    ensures data { IfOk result (λ b. Sends
        (option_map object (row_data (data_of (look_in stores.now) levels) row.now)) b
        out.old.tokens out.new.tokens) }
    ensures path { OnOk result (path.new.items ≡ path.old.items) }
    ensures before { out.new.before ≡ out.old.before }
{
    out.begin_object()?;
    for member in row {
        out.key(member.0)?;
        if !write_value(alloc, stores, levels, path, member.1, out)? {
            return Ok(false);
        }
    }
    out.end_object()?;
    Ok(true)
}

/// The members of a small dictionary, in byte order of their names. `None` says nothing: it is the answer if a key is
/// not a string, or a string is a key twice.
fn few_members<'a>(
    alloc: Global,
    stores: &Stores<'a>,
    entries: &[(Value, Value)],
) -> Result<Option<Vec<(&'a str, Value)>>, AllocError>
    ensures { IfOk result (λ found. IfSome found (λ row. IsRowOf (look_in stores.now) entries.now row.items)) }
{
    let mut row = Vec::with_capacity(alloc, entries.len())?;
    for i in (0..entries.len()).rev() {
        let Some(key) = text_at(stores, entries[i].0) else {
            return Ok(None);
        };
        if !put_new(&mut row, key, entries[i].1)? {
            return Ok(None);
        }
    }
    Ok(Some(row))
}

/// Puts a name with a value at its place among names in byte order: whether the name was new.
fn put_new<'a>(
    row: &mut Vec<(&'a str, Value)>,
    key: &'a str,
    value: Value,
) -> Result<bool, AllocError>
    ensures { IfOk result (λ is_new. (if is_new then Some row.new.items else None) ≡ put_new row.old.items key.entry value) }
{
    for i in 0..row.len() {
        match key.cmp(row[i].0) {
            Ordering::Less => {
                row.insert(i, (key, value))?;
                return Ok(true);
            }
            Ordering::Equal => return Ok(false),
            Ordering::Greater => {}
        }
    }
    row.push((key, value))?;
    Ok(true)
}

/// The text of a string, which may be a key: it is UTF-8.
fn text_at<'a>(stores: &Stores<'a>, value: Value) -> Option<&'a str>
    ensures { option_copied result ≡ key_in (cell_of (look_in stores.now) value) }
{
    match stores.arena.read(stores.homes, value) {
        Some(Cell::Text(text)) => Some(text.as_str()),
        _ => None,
    }
}

/// Whether two values lead to one cell.
fn same_address(x: Value, y: Value) -> bool
    ensures { result ≡ same_address x y }
{
    match (x, y) {
        (Value::Ref { home: h, at: a }, Value::Ref { home: k, at: b }) => h == k && a == b,
        _ => false,
    }
}

/// Whether a list or dictionary is one of these.
fn is_within(path: &[Value], value: Value) -> bool
    ensures { result ≡ on_path value path.now }
{
    path.iter().any(|v| same_address(value, *v))
}

/// Leaves the last list or dictionary.
fn leave(path: &mut Vec<Value>)
    ensures { path.new.items ≡ take (vec_len path.old - 1) path.old.items }
{
    path.truncate(path.len().saturating_sub(1));
}
