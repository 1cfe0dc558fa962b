//! The JSON of values, which pay a step for each value that they show.
//!
//! It is not built: it is a draft. The members of a dictionary are gathered when the text enters it. A dictionary inside
//! itself, which ends in `Deep` or in `Steps`, has those that were gathered for it: it takes no memory for each level.

ghost use Rattle.std.specs.Prelude.{◌≡◌, ◌≤◌, ◌<◌, ◌^◌, ◌++◌, ◌+◌, [], IfOk, IfSome, OnOk, Option, Some};
ghost use Rattle.std.specs.Fmt.{signed_decimal};
ghost use Rattle.std.specs.Option.{option_copied, option_map};
ghost use Rattle.json.specs.Print.{quoted};
ghost use Rattle.star_store.specs.Fields.{is_before};
ghost use Rattle.star_store.specs.Json.{bool_word, closing, colon, comma, json, line, members, named, put_array, put_cell, put_dict, put_elements, put_items, put_member, put_members, put_nth, put_object, put_place, put_set, put_value};
ghost use Rattle.star_store.specs.Sorting.{in_order};
ghost use Rattle.star_store.specs.Store.{look};
ghost use Rattle.star_store.specs.Text.{Tells, same_address};
ghost use Rattle.star_store.specs.declared.values.Value.{Value as AnyValue};
ghost use Rattle.star_store.specs.declared.values.Cell.{Cell as AnyCell};
ghost use Rattle.star_store.specs.declared.values.Cell.TheVariants as cell;
ghost use Rattle.star_visit.specs.Sheets.{AreMembers, AreWithin, Writes, look_in};

use crate::draft::Draft;
use sqlite_items::Boxed;
use star_store::arena::{Arena, Homes};
use star_store::budget::Budget;
use star_store::fault::StoreFault;
use star_store::fields::Fields;
use star_store::layout::Layout;
use star_store::values::{Cell, Entries, Value, Values};
use star_text::Text;
use std::alloc::{AllocError, Global};

/// What is written: the stores that values lead to, and the layout.
#[derive(Drop)]
struct Source<'a> {
    arena: &'a Arena,
    homes: &'a Homes<'a>,
    layout: &'a Layout,
}

/// A text that grows, and the steps that are left.
#[derive(Drop)]
struct Sheet {
    alloc: Global,
    out: Draft,
    steps: u64,
}

/// The dictionaries that the text is now inside of, the innermost first, with their members.
#[derive(Clone, Copy)]
enum Way<'a> {
    Outside,
    Inside {
        dict: Value,
        members: &'a [(Text, Value)],
        outer: &'a Way<'a>,
    },
}

/// The JSON of a value. It visits the value and all values inside, in the order of the text: a visit opens a level (else
/// `Deep`) and then pays a step (else `Steps`). `BadType` for a value that is no None, bool, int, string, list, tuple,
/// set, struct, or dictionary whose keys are all strings. `Memory` if an allocation fails. The text is not built: it is a
/// draft, in which at most about `room` bytes of long strings are copied.
pub fn encode(
    alloc: Global,
    arena: &Arena,
    homes: &Homes,
    budget: &mut Budget,
    layout: &Layout,
    value: Value,
    room: usize,
) -> Result<Draft, StoreFault>
    ensures answer { Tells (json (look arena.now homes.now) layout.now budget.old.levels 0 value [] budget.old.steps)
        result budget.new.steps }
    ensures less { budget.new.steps ≤ budget.old.steps }
    ensures levels { budget.new.levels ≡ budget.old.levels }
{
    let source = Source {
        arena,
        homes,
        layout,
    };
    let mut sheet = Sheet {
        alloc,
        out: Draft::new(alloc, room),
        steps: budget.steps,
    };
    let answer = put_json(&source, &Way::Outside, budget.levels, 0, &mut sheet, value);
    budget.steps = sheet.steps;
    answer?;
    Ok(sheet.out)
}

#[cycle(json)]
#[tactic(auto, using(crate::proofs::Sheets::json_at, crate::proofs::Sheets::json_at_none))]
fn put_json<'a>(
    source: &'a Source<'a>,
    way: &Way<'_>,
    levels: u32,
    depth: u32,
    sheet: &mut Sheet,
    value: Value,
) -> Result<(), StoreFault>
    requires way { AreWithin (look_in source.now) way.now }
    requires small { depth + levels < 2 ^ 32 }
    ensures answer { Writes (json (look_in source.now) source.now.layout.now levels depth value) sheet.old result
        sheet.new }
    ensures less { sheet.new.steps ≤ sheet.old.steps }
{
    if levels == 0 {
        return Err(StoreFault::Deep);
    }
    if sheet.steps < 1 {
        return Err(StoreFault::Steps);
    }
    sheet.steps -= 1;
    put_value(source, way, levels - 1, depth, sheet, value)
}

#[cycle(json)]
fn put_value<'a>(
    source: &'a Source<'a>,
    way: &Way<'_>,
    levels: u32,
    depth: u32,
    sheet: &mut Sheet,
    value: Value,
) -> Result<(), StoreFault>
    requires way { AreWithin (look_in source.now) way.now }
    requires small { depth + 1 + levels < 2 ^ 32 }
    ensures answer { Writes (put_value (look_in source.now) source.now.layout.now depth
        (json (look_in source.now) source.now.layout.now levels) value) sheet.old result sheet.new }
    ensures less { sheet.new.steps ≤ sheet.old.steps }
{
    match value {
        Value::NoneValue => sheet.say("null")?,
        Value::Bool(b) => sheet.say_bool(b)?,
        Value::Int(n) => sheet.say_int(n)?,
        Value::Builtin(_) => return Err(StoreFault::BadType),
        Value::Ref { .. } => {
            let cell = source.arena.read(source.homes, value);
            put_cell(source, way, levels, depth, sheet, value, cell)?;
        }
    }
    Ok(())
}

#[cycle(json)]
fn put_cell<'a>(
    source: &'a Source<'a>,
    way: &Way<'_>,
    levels: u32,
    depth: u32,
    sheet: &mut Sheet,
    value: Value,
    cell: Option<&'a Cell>,
) -> Result<(), StoreFault>
    requires way { AreWithin (look_in source.now) way.now }
    requires small { depth + 1 + levels < 2 ^ 32 }
    requires cell { look_in source.now value ≡ option_copied cell }
    ensures answer { Writes (put_cell (look_in source.now) source.now.layout.now depth
        (json (look_in source.now) source.now.layout.now levels) (option_copied cell.entry)) sheet.old result
        sheet.new }
    ensures less { sheet.new.steps ≤ sheet.old.steps }
{
    match cell {
        Some(Cell::Text(text)) => sheet.say_text(text)?,
        Some(Cell::Tuple(items)) => put_array(source, way, levels, depth, sheet, items)?,
        Some(Cell::List(items)) => put_array(source, way, levels, depth, sheet, items)?,
        Some(Cell::Dict(entries)) => {
            put_dict(source, way, levels, depth, sheet, value, entries)?;
        }
        Some(Cell::Struct(fields)) => put_struct(source, way, levels, depth, sheet, fields)?,
        Some(Cell::Set(elements)) => put_set(source, way, levels, depth, sheet, elements)?,
        _ => return Err(StoreFault::BadType),
    }
    Ok(())
}

#[cycle(json)]
fn put_array<'a>(
    source: &'a Source<'a>,
    way: &Way<'_>,
    levels: u32,
    depth: u32,
    sheet: &mut Sheet,
    items: &'a Values,
) -> Result<(), StoreFault>
    requires way { AreWithin (look_in source.now) way.now }
    requires small { depth + 1 + levels < 2 ^ 32 }
    ensures answer { Writes (put_array source.now.layout.now depth
        (json (look_in source.now) source.now.layout.now levels (depth + 1)) items.now) sheet.old result sheet.new }
    ensures less { sheet.new.steps ≤ sheet.old.steps }
{
    sheet.say("[")?;
    put_items(source, way, levels, depth + 1, sheet, items)?;
    sheet.close(source.layout, depth, items.len(), "]")?;
    Ok(())
}

#[cycle(json)]
#[tactic(auto, using(crate::proofs::Texts::all_said_next))]
fn put_items<'a>(
    source: &'a Source<'a>,
    way: &Way<'_>,
    levels: u32,
    depth: u32,
    sheet: &mut Sheet,
    items: &'a Values,
) -> Result<(), StoreFault>
    requires way { AreWithin (look_in source.now) way.now }
    requires small { depth + levels < 2 ^ 32 }
    ensures answer { Writes (put_items source.now.layout.now depth
        (json (look_in source.now) source.now.layout.now levels depth) items.now) sheet.old result sheet.new }
    ensures less { sheet.new.steps ≤ sheet.old.steps }
{
    let count = items.len();
    for i in 0..count {
        put_place(source, way, levels, depth, sheet, items, i)?;
    }
    Ok(())
}

#[cycle(json)]
fn put_place<'a>(
    source: &'a Source<'a>,
    way: &Way<'_>,
    levels: u32,
    depth: u32,
    sheet: &mut Sheet,
    items: &'a Values,
    i: usize,
) -> Result<(), StoreFault>
    requires way { AreWithin (look_in source.now) way.now }
    requires small { depth + levels < 2 ^ 32 }
    ensures answer { Writes (put_place source.now.layout.now depth
        (json (look_in source.now) source.now.layout.now levels depth) items.now i) sheet.old result sheet.new }
    ensures less { sheet.new.steps ≤ sheet.old.steps }
{
    sheet.begin_item(source.layout, depth, i)?;
    match items.get(i) {
        Some(item) => put_json(source, way, levels, depth, sheet, item)?,
        None => sheet.say("")?,
    }
    Ok(())
}

#[cycle(json)]
fn put_set<'a>(
    source: &'a Source<'a>,
    way: &Way<'_>,
    levels: u32,
    depth: u32,
    sheet: &mut Sheet,
    elements: &'a Entries,
) -> Result<(), StoreFault>
    requires way { AreWithin (look_in source.now) way.now }
    requires small { depth + 1 + levels < 2 ^ 32 }
    ensures answer { Writes (put_set source.now.layout.now depth
        (json (look_in source.now) source.now.layout.now levels (depth + 1)) elements.now) sheet.old result sheet.new }
    ensures less { sheet.new.steps ≤ sheet.old.steps }
{
    sheet.say("[")?;
    put_elements(source, way, levels, depth + 1, sheet, elements)?;
    sheet.close(source.layout, depth, elements.len(), "]")?;
    Ok(())
}

#[cycle(json)]
#[tactic(auto, using(crate::proofs::Texts::all_said_next))]
fn put_elements<'a>(
    source: &'a Source<'a>,
    way: &Way<'_>,
    levels: u32,
    depth: u32,
    sheet: &mut Sheet,
    elements: &'a Entries,
) -> Result<(), StoreFault>
    requires way { AreWithin (look_in source.now) way.now }
    requires small { depth + levels < 2 ^ 32 }
    ensures answer { Writes (put_elements source.now.layout.now depth
        (json (look_in source.now) source.now.layout.now levels depth) elements.now) sheet.old result sheet.new }
    ensures less { sheet.new.steps ≤ sheet.old.steps }
{
    let count = elements.len();
    for i in 0..count {
        put_nth(source, way, levels, depth, sheet, elements, i)?;
    }
    Ok(())
}

#[cycle(json)]
fn put_nth<'a>(
    source: &'a Source<'a>,
    way: &Way<'_>,
    levels: u32,
    depth: u32,
    sheet: &mut Sheet,
    elements: &'a Entries,
    i: usize,
) -> Result<(), StoreFault>
    requires way { AreWithin (look_in source.now) way.now }
    requires small { depth + levels < 2 ^ 32 }
    ensures answer { Writes (put_nth source.now.layout.now depth
        (json (look_in source.now) source.now.layout.now levels depth) elements.now i) sheet.old result sheet.new }
    ensures less { sheet.new.steps ≤ sheet.old.steps }
{
    sheet.begin_item(source.layout, depth, i)?;
    match elements.get(i) {
        Some((element, _)) => put_json(source, way, levels, depth, sheet, element)?,
        None => sheet.say("")?,
    }
    Ok(())
}

#[cycle(json)]
fn put_struct<'a>(
    source: &'a Source<'a>,
    way: &Way<'_>,
    levels: u32,
    depth: u32,
    sheet: &mut Sheet,
    fields: &'a Boxed<Fields>,
) -> Result<(), StoreFault>
    requires way { AreWithin (look_in source.now) way.now }
    requires small { depth + 1 + levels < 2 ^ 32 }
    ensures answer { Writes (put_object source.now.layout.now depth
        (json (look_in source.now) source.now.layout.now levels (depth + 1)) fields.now) sheet.old result sheet.new }
    ensures less { sheet.new.steps ≤ sheet.old.steps }
{
    sheet.say("{")?;
    put_fields(source, way, levels, depth + 1, sheet, fields.get())?;
    sheet.close(source.layout, depth, fields.get().len(), "}")?;
    Ok(())
}

#[cycle(json)]
#[tactic(auto, using(crate::proofs::Texts::all_said_next))]
fn put_fields<'a>(
    source: &'a Source<'a>,
    way: &Way<'_>,
    levels: u32,
    depth: u32,
    sheet: &mut Sheet,
    fields: &'a Fields,
) -> Result<(), StoreFault>
    requires way { AreWithin (look_in source.now) way.now }
    requires small { depth + levels < 2 ^ 32 }
    ensures answer { Writes (put_members source.now.layout.now depth
        (json (look_in source.now) source.now.layout.now levels depth) fields.now) sheet.old result sheet.new }
    ensures less { sheet.new.steps ≤ sheet.old.steps }
{
    let count = fields.len();
    for i in 0..count {
        put_field(source, way, levels, depth, sheet, fields, i)?;
    }
    Ok(())
}

#[cycle(json)]
fn put_field<'a>(
    source: &'a Source<'a>,
    way: &Way<'_>,
    levels: u32,
    depth: u32,
    sheet: &mut Sheet,
    fields: &'a Fields,
    i: usize,
) -> Result<(), StoreFault>
    requires way { AreWithin (look_in source.now) way.now }
    requires small { depth + levels < 2 ^ 32 }
    ensures answer { Writes (put_member source.now.layout.now depth
        (json (look_in source.now) source.now.layout.now levels depth) fields.now i) sheet.old result sheet.new }
    ensures less { sheet.new.steps ≤ sheet.old.steps }
{
    sheet.begin_item(source.layout, depth, i)?;
    match fields.at(i) {
        Some((name, value)) => {
            sheet.say_name(source.layout, name)?;
            put_json(source, way, levels, depth, sheet, value)?;
        }
        None => sheet.say("")?,
    }
    Ok(())
}

#[cycle(json)]
fn put_dict<'a>(
    source: &'a Source<'a>,
    way: &Way<'_>,
    levels: u32,
    depth: u32,
    sheet: &mut Sheet,
    dict: Value,
    entries: &'a Entries,
) -> Result<(), StoreFault>
    requires way { AreWithin (look_in source.now) way.now }
    requires small { depth + 1 + levels < 2 ^ 32 }
    requires cell { look_in source.now dict ≡ Some (cell.Dict entries.now) }
    ensures answer { Writes (put_dict source.now.layout.now depth
        (json (look_in source.now) source.now.layout.now levels (depth + 1)) (members (look_in source.now) entries.now))
        sheet.old result sheet.new }
    ensures less { sheet.new.steps ≤ sheet.old.steps }
{
    if let Some(members) = members_on(way, dict) {
        return put_object(source, way, levels, depth, sheet, members);
    }
    let Some(members) = members(sheet.alloc, source, entries.as_slice())? else {
        return Err(StoreFault::BadType);
    };
    let inside = Way::Inside {
        dict,
        members: members.as_slice(),
        outer: &*way,
    };
    put_object(source, &inside, levels, depth, sheet, members.as_slice())
}

#[cycle(json)]
fn put_object<'a>(
    source: &'a Source<'a>,
    way: &Way<'_>,
    levels: u32,
    depth: u32,
    sheet: &mut Sheet,
    members: &[(Text, Value)],
) -> Result<(), StoreFault>
    requires way { AreWithin (look_in source.now) way.now }
    requires small { depth + 1 + levels < 2 ^ 32 }
    ensures answer { Writes (put_object source.now.layout.now depth
        (json (look_in source.now) source.now.layout.now levels (depth + 1)) members.now) sheet.old result sheet.new }
    ensures less { sheet.new.steps ≤ sheet.old.steps }
{
    sheet.say("{")?;
    put_members(source, way, levels, depth + 1, sheet, members)?;
    sheet.close(source.layout, depth, members.len(), "}")?;
    Ok(())
}

#[cycle(json)]
#[tactic(auto, using(crate::proofs::Texts::all_said_next))]
fn put_members<'a>(
    source: &'a Source<'a>,
    way: &Way<'_>,
    levels: u32,
    depth: u32,
    sheet: &mut Sheet,
    members: &[(Text, Value)],
) -> Result<(), StoreFault>
    requires way { AreWithin (look_in source.now) way.now }
    requires small { depth + levels < 2 ^ 32 }
    ensures answer { Writes (put_members source.now.layout.now depth
        (json (look_in source.now) source.now.layout.now levels depth) members.now) sheet.old result sheet.new }
    ensures less { sheet.new.steps ≤ sheet.old.steps }
{
    let count = members.len();
    for i in 0..count {
        put_member(source, way, levels, depth, sheet, members, i)?;
    }
    Ok(())
}

#[cycle(json)]
fn put_member<'a>(
    source: &'a Source<'a>,
    way: &Way<'_>,
    levels: u32,
    depth: u32,
    sheet: &mut Sheet,
    members: &[(Text, Value)],
    i: usize,
) -> Result<(), StoreFault>
    requires way { AreWithin (look_in source.now) way.now }
    requires small { depth + levels < 2 ^ 32 }
    ensures answer { Writes (put_member source.now.layout.now depth
        (json (look_in source.now) source.now.layout.now levels depth) members.now i) sheet.old result sheet.new }
    ensures less { sheet.new.steps ≤ sheet.old.steps }
{
    sheet.begin_item(source.layout, depth, i)?;
    if i < members.len() {
        let (name, value) = &members[i];
        sheet.say_name(source.layout, name)?;
        put_json(source, way, levels, depth, sheet, *value)?;
    } else {
        sheet.say("")?;
    }
    Ok(())
}

/// Whether two values lead to one cell.
fn same_address(x: Value, y: Value) -> bool
    ensures { result ≡ same_address x y }
{
    match (x, y) {
        (Value::Ref { home: h, at: a }, Value::Ref { home: k, at: b }) => h == k && a == b,
        _ => false,
    }
}

/// The members of a dictionary that the text is already inside of.
fn members_on<'a>(way: &Way<'a>, dict: Value) -> Option<&'a [(Text, Value)]>
    ensures { (look : AnyValue → Option AnyCell) → AreWithin look way.now → IfSome result (λ ms. AreMembers look dict ms.now) }
{
    let mut way = way;
    while let Way::Inside {
        dict: other,
        members,
        outer,
    } = way
    {
        if same_address(dict, *other) {
            return Some(*members);
        }
        way = *outer;
    }
    None
}

/// Entries whose keys are all strings, as names with values; `None` if a key is no string.
fn named(
    alloc: Global,
    source: &Source<'_>,
    entries: &[(Value, Value)],
) -> Result<Option<Vec<(Text, Value)>>, AllocError>
    ensures { IfOk result (λ made. option_map (λ v. v.items) made ≡ named (look_in source.now) entries.now) }
{
    let mut fields = Vec::with_capacity(alloc, entries.len())?;
    for entry in entries {
        match source.arena.read(source.homes, entry.0) {
            Some(Cell::Text(name)) => fields.push((name.share()?, entry.1))?,
            _ => return Ok(None),
        }
    }
    Ok(Some(fields))
}

/// Members in byte order of their names.
fn in_order(fields: Vec<(Text, Value)>) -> Result<Vec<(Text, Value)>, AllocError>
    ensures { IfOk result (λ sorted. sorted.items ≡ in_order is_before fields.items) }
{
    let mut fields = fields;
    fields.sort_by(|x, y| x.0.as_str().cmp(y.0.as_str()))?;
    Ok(fields)
}

/// The members of a dictionary, in byte order of their names; `None` if a key is no string.
fn members(
    alloc: Global,
    source: &Source<'_>,
    entries: &[(Value, Value)],
) -> Result<Option<Vec<(Text, Value)>>, AllocError>
    ensures { IfOk result (λ made. option_map (λ v. v.items) made ≡ members (look_in source.now) entries.now) }
{
    match named(alloc, source, entries)? {
        Some(fields) => Ok(Some(in_order(fields)?)),
        None => Ok(None),
    }
}

impl Sheet {
    /// Puts more after the text.
    fn say(&mut self, more: &str) -> Result<(), AllocError>
        ensures said { OnOk result (self.new.out ≡ self.old.out ++ more.now) }
        ensures steps { self.new.steps ≡ self.old.steps }
    {
        self.out.say(more)
    }

    fn say_bool(&mut self, b: bool) -> Result<(), AllocError>
        ensures said { OnOk result (self.new.out ≡ self.old.out ++ bool_word b) }
        ensures steps { self.new.steps ≡ self.old.steps }
    {
        if b {
            self.say("true")
        } else {
            self.say("false")
        }
    }

    fn say_int(&mut self, n: i64) -> Result<(), AllocError>
        ensures said { OnOk result (self.new.out ≡ self.old.out ++ signed_decimal n) }
        ensures steps { self.new.steps ≡ self.old.steps }
    {
        let digits = format!(in self.alloc; "{n}")?;
        self.say(digits.as_str())
    }

    fn say_text(&mut self, text: &Text) -> Result<(), AllocError>
        ensures said { OnOk result (self.new.out ≡ self.old.out ++ quoted text.now) }
        ensures steps { self.new.steps ≡ self.old.steps }
    {
        self.out.put_json(text)
    }

    /// Puts the line end and the beginning of a line where this many brackets are open.
    fn say_line(&mut self, layout: &Layout, depth: u32) -> Result<(), AllocError>
        ensures said { OnOk result (self.new.out ≡ self.old.out ++ line layout.now depth) }
        ensures steps { self.new.steps ≡ self.old.steps }
    {
        match layout {
            Layout::Compact => self.say(""),
            Layout::Lines(prefix, indent) => self.out.put_line(prefix, indent, depth),
        }
    }

    /// Puts what comes before the item at a place.
    fn begin_item(&mut self, layout: &Layout, depth: u32, i: usize) -> Result<(), AllocError>
        ensures said { OnOk result (self.new.out ≡ self.old.out ++ comma i ++ line layout.now depth) }
        ensures steps { self.new.steps ≡ self.old.steps }
    {
        self.say(if i == 0 { "" } else { "," })?;
        self.say_line(layout, depth)
    }

    /// Puts a name and a colon after the text.
    fn say_name(&mut self, layout: &Layout, name: &Text) -> Result<(), AllocError>
        ensures said { OnOk result (self.new.out ≡ self.old.out ++ quoted name.now ++ colon layout.now) }
        ensures steps { self.new.steps ≡ self.old.steps }
    {
        self.say_text(name)?;
        match layout {
            Layout::Compact => self.say(":"),
            Layout::Lines(_, _) => self.say(": "),
        }
    }

    /// Puts the bracket that closes this many items.
    fn close(
        &mut self,
        layout: &Layout,
        depth: u32,
        count: usize,
        bracket: &str,
    ) -> Result<(), AllocError>
        ensures said { OnOk result (self.new.out ≡ self.old.out ++ closing layout.now depth count ++ bracket.now) }
        ensures steps { self.new.steps ≡ self.old.steps }
    {
        if count > 0 {
            self.say_line(layout, depth)?;
        }
        self.say(bracket)
    }
}
