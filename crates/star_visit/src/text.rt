//! The texts of values, which pay a step for each value that they show.
//!
//! The text of a frame, or of a dangling reference, is empty: neither is a value of the language.

ghost use Rattle.std.specs.Prelude.{◌≡◌, ◌≤◌, ◌++◌, ◌∷◌, ◌-◌, [], OnOk, codes, take, vec_len};
ghost use Rattle.std.specs.Fmt.{signed_decimal};
ghost use Rattle.star_store.specs.Store.{look};
ghost use Rattle.star_store.specs.Text.{Tells, after, all_bounds, bool_text, bounds_parts, function_parts, method_parts, on_path, parts_of_built_in, quoted, range_after, same_address, say_dict, say_elements, say_entries, say_entry, say_field, say_fields, say_inside, say_items, say_list, say_new_dict, say_new_list, say_nth, say_place, say_read, say_set, say_struct, say_tuple, say_within, separator, text, tuple_end};
ghost use Rattle.star_visit.specs.Pages.{Puts};

use crate::draft::Draft;
use sqlite_items::Boxed;
use star_store::arena::{Arena, Homes};
use star_store::budget::Budget;
use star_store::fault::StoreFault;
use star_store::fields::Fields;
use star_store::names::{BuiltIn, Method};
use star_store::range::Range;
use star_store::values::{Cell, Entries, Value, Values};
use star_text::Text;
use std::alloc::{AllocError, Global};

/// A text that grows, the steps that are left, and the lists and dictionaries that the text is now inside of.
#[derive(Drop)]
struct Page {
    alloc: Global,
    out: Draft,
    path: Vec<Value>,
    steps: u64,
}

/// The text of a value. It visits the value and all values inside: a visit opens a level (else `Deep`) and then pays a
/// step (else `Steps`). A list or dictionary inside itself is `[...]` or `{...}`. `Memory` if an allocation fails. The
/// text is not built: it is a draft, in which at most about `room` bytes of long strings are copied.
pub fn repr(
    alloc: Global,
    arena: &Arena,
    homes: &Homes,
    names: &[Text],
    budget: &mut Budget,
    value: Value,
    room: usize,
) -> Result<Draft, StoreFault>
    ensures answer { Tells (text names.now (look arena.now homes.now) budget.old.levels [] value [] budget.old.steps)
        result budget.new.steps }
    ensures less { budget.new.steps ≤ budget.old.steps }
    ensures levels { budget.new.levels ≡ budget.old.levels }
{
    let mut page = Page {
        alloc,
        out: Draft::new(alloc, room),
        path: Vec::new(alloc),
        steps: budget.steps,
    };
    let answer = put_text(arena, homes, names, budget.levels, &mut page, value);
    budget.steps = page.steps;
    answer?;
    Ok(page.out)
}

#[cycle(text)]
#[tactic(auto, using(crate::proofs::Texts::text_at, crate::proofs::Texts::text_at_none))]
fn put_text<'a>(
    arena: &'a Arena,
    homes: &'a Homes<'a>,
    names: &'a [Text],
    levels: u32,
    page: &mut Page,
    value: Value,
) -> Result<(), StoreFault>
    ensures answer { Puts (text names.now (look arena.now homes.now) levels page.old.path.items value) page.old result page.new }
    ensures less { page.new.steps ≤ page.old.steps }
    ensures path { OnOk result (page.new.path.items ≡ page.old.path.items) }
{
    if levels == 0 {
        return Err(StoreFault::Deep);
    }
    if page.steps < 1 {
        return Err(StoreFault::Steps);
    }
    page.steps -= 1;
    put_value(arena, homes, names, levels - 1, page, value)
}

#[cycle(text)]
fn put_value<'a>(
    arena: &'a Arena,
    homes: &'a Homes<'a>,
    names: &'a [Text],
    levels: u32,
    page: &mut Page,
    value: Value,
) -> Result<(), StoreFault>
    ensures answer { Puts (say_within names.now (look arena.now homes.now) levels page.old.path.items value) page.old result
        page.new }
    ensures less { page.new.steps ≤ page.old.steps }
    ensures path { OnOk result (page.new.path.items ≡ page.old.path.items) }
{
    match value {
        Value::NoneValue => page.say("None")?,
        Value::Bool(b) => page.say_bool(b)?,
        Value::Int(n) => page.say_int(n)?,
        Value::Builtin(b) => page.say_built_in(names, b)?,
        Value::Ref { .. } => {
            put_cell(
                arena,
                homes,
                names,
                levels,
                page,
                value,
                arena.read(homes, value),
            )?;
        }
    }
    Ok(())
}

#[cycle(text)]
fn put_cell<'a>(
    arena: &'a Arena,
    homes: &'a Homes<'a>,
    names: &'a [Text],
    levels: u32,
    page: &mut Page,
    value: Value,
    cell: Option<&'a Cell>,
) -> Result<(), StoreFault>
    ensures answer { Puts (say_read names.now (look arena.now homes.now) levels page.old.path.items value cell.entry) page.old
        result page.new }
    ensures less { page.new.steps ≤ page.old.steps }
    ensures path { OnOk result (page.new.path.items ≡ page.old.path.items) }
{
    match cell {
        Some(Cell::Text(t)) => page.say_quoted(t)?,
        Some(Cell::Range(range)) => page.say_range(*range)?,
        Some(Cell::Tuple(items)) => put_tuple(arena, homes, names, levels, page, items)?,
        Some(Cell::List(items)) => put_list(arena, homes, names, levels, page, value, items)?,
        Some(Cell::Dict(entries)) => put_dict(arena, homes, names, levels, page, value, entries)?,
        Some(Cell::Func(function)) => page.say_function(&function.get().name)?,
        Some(Cell::Bound(method, _)) => page.say_method(*method)?,
        Some(Cell::Struct(fields)) => put_struct(arena, homes, names, levels, page, fields)?,
        Some(Cell::Set(elements)) => put_set(arena, homes, names, levels, page, elements)?,
        Some(Cell::Frame(_)) | None => page.say("")?,
    }
    Ok(())
}

#[cycle(text)]
fn put_tuple<'a>(
    arena: &'a Arena,
    homes: &'a Homes<'a>,
    names: &'a [Text],
    levels: u32,
    page: &mut Page,
    items: &'a Values,
) -> Result<(), StoreFault>
    ensures answer { Puts (say_tuple (text names.now (look arena.now homes.now) levels page.old.path.items) items.now) page.old
        result page.new }
    ensures less { page.new.steps ≤ page.old.steps }
    ensures path { OnOk result (page.new.path.items ≡ page.old.path.items) }
{
    page.say("(")?;
    put_items(arena, homes, names, levels, page, items)?;
    page.say_tuple_end(items)?;
    Ok(())
}

#[cycle(text)]
fn put_struct<'a>(
    arena: &'a Arena,
    homes: &'a Homes<'a>,
    names: &'a [Text],
    levels: u32,
    page: &mut Page,
    fields: &'a Boxed<Fields>,
) -> Result<(), StoreFault>
    ensures answer { Puts (say_struct (text names.now (look arena.now homes.now) levels page.old.path.items) fields.now) page.old
        result page.new }
    ensures less { page.new.steps ≤ page.old.steps }
    ensures path { OnOk result (page.new.path.items ≡ page.old.path.items) }
{
    page.say("struct(")?;
    put_fields(arena, homes, names, levels, page, fields.get())?;
    page.say(")")?;
    Ok(())
}

#[cycle(text)]
#[tactic(auto, using(crate::proofs::Texts::all_said_next))]
fn put_fields<'a>(
    arena: &'a Arena,
    homes: &'a Homes<'a>,
    names: &'a [Text],
    levels: u32,
    page: &mut Page,
    fields: &'a Fields,
) -> Result<(), StoreFault>
    ensures answer { Puts (say_fields (text names.now (look arena.now homes.now) levels page.old.path.items) fields.now) page.old
        result page.new }
    ensures less { page.new.steps ≤ page.old.steps }
    ensures path { OnOk result (page.new.path.items ≡ page.old.path.items) }
{
    let count = fields.len();
    for i in 0..count {
        put_field(arena, homes, names, levels, page, fields, i)?;
    }
    Ok(())
}

#[cycle(text)]
fn put_field<'a>(
    arena: &'a Arena,
    homes: &'a Homes<'a>,
    names: &'a [Text],
    levels: u32,
    page: &mut Page,
    fields: &'a Fields,
    i: usize,
) -> Result<(), StoreFault>
    ensures answer { Puts (say_field (text names.now (look arena.now homes.now) levels page.old.path.items) fields.now i) page.old
        result page.new }
    ensures less { page.new.steps ≤ page.old.steps }
    ensures path { OnOk result (page.new.path.items ≡ page.old.path.items) }
{
    page.say_separator(i)?;
    match fields.at(i) {
        Some((name, value)) => {
            page.say_name(name)?;
            put_text(arena, homes, names, levels, page, value)?;
        }
        None => page.say("")?,
    }
    Ok(())
}

#[cycle(text)]
fn put_set<'a>(
    arena: &'a Arena,
    homes: &'a Homes<'a>,
    names: &'a [Text],
    levels: u32,
    page: &mut Page,
    elements: &'a Entries,
) -> Result<(), StoreFault>
    ensures answer { Puts (say_set (text names.now (look arena.now homes.now) levels page.old.path.items) elements.now) page.old
        result page.new }
    ensures less { page.new.steps ≤ page.old.steps }
    ensures path { OnOk result (page.new.path.items ≡ page.old.path.items) }
{
    page.say("set([")?;
    put_elements(arena, homes, names, levels, page, elements)?;
    page.say("])")?;
    Ok(())
}

#[cycle(text)]
#[tactic(auto, using(crate::proofs::Texts::all_said_next))]
fn put_elements<'a>(
    arena: &'a Arena,
    homes: &'a Homes<'a>,
    names: &'a [Text],
    levels: u32,
    page: &mut Page,
    elements: &'a Entries,
) -> Result<(), StoreFault>
    ensures answer { Puts (say_elements (text names.now (look arena.now homes.now) levels page.old.path.items) elements.now)
        page.old result page.new }
    ensures less { page.new.steps ≤ page.old.steps }
    ensures path { OnOk result (page.new.path.items ≡ page.old.path.items) }
{
    let count = elements.len();
    for i in 0..count {
        put_nth(arena, homes, names, levels, page, elements, i)?;
    }
    Ok(())
}

#[cycle(text)]
fn put_nth<'a>(
    arena: &'a Arena,
    homes: &'a Homes<'a>,
    names: &'a [Text],
    levels: u32,
    page: &mut Page,
    elements: &'a Entries,
    i: usize,
) -> Result<(), StoreFault>
    ensures answer { Puts (say_nth (text names.now (look arena.now homes.now) levels page.old.path.items) elements.now i) page.old
        result page.new }
    ensures less { page.new.steps ≤ page.old.steps }
    ensures path { OnOk result (page.new.path.items ≡ page.old.path.items) }
{
    page.say_separator(i)?;
    match elements.get(i) {
        Some((element, _)) => put_text(arena, homes, names, levels, page, element)?,
        None => page.say("")?,
    }
    Ok(())
}

#[cycle(text)]
fn put_list<'a>(
    arena: &'a Arena,
    homes: &'a Homes<'a>,
    names: &'a [Text],
    levels: u32,
    page: &mut Page,
    value: Value,
    items: &'a Values,
) -> Result<(), StoreFault>
    ensures answer { Puts (say_list (text names.now (look arena.now homes.now) levels) page.old.path.items value items.now)
        page.old result page.new }
    ensures less { page.new.steps ≤ page.old.steps }
    ensures path { OnOk result (page.new.path.items ≡ page.old.path.items) }
{
    if page.is_within(value) {
        page.say("[...]")?;
        return Ok(());
    }
    put_new_list(arena, homes, names, levels, page, value, items)
}

#[cycle(text)]
fn put_new_list<'a>(
    arena: &'a Arena,
    homes: &'a Homes<'a>,
    names: &'a [Text],
    levels: u32,
    page: &mut Page,
    value: Value,
    items: &'a Values,
) -> Result<(), StoreFault>
    ensures answer { Puts (say_new_list (say_inside names.now (look arena.now homes.now) levels page.old.path.items value)
        items.now) page.old result page.new }
    ensures less { page.new.steps ≤ page.old.steps }
    ensures path { OnOk result (page.new.path.items ≡ page.old.path.items) }
{
    page.say("[")?;
    put_inner_items(arena, homes, names, levels, page, value, items)?;
    page.say("]")?;
    Ok(())
}

#[cycle(text)]
fn put_dict<'a>(
    arena: &'a Arena,
    homes: &'a Homes<'a>,
    names: &'a [Text],
    levels: u32,
    page: &mut Page,
    value: Value,
    entries: &'a Entries,
) -> Result<(), StoreFault>
    ensures answer { Puts (say_dict (text names.now (look arena.now homes.now) levels) page.old.path.items value entries.now)
        page.old result page.new }
    ensures less { page.new.steps ≤ page.old.steps }
    ensures path { OnOk result (page.new.path.items ≡ page.old.path.items) }
{
    if page.is_within(value) {
        page.say("{...}")?;
        return Ok(());
    }
    put_new_dict(arena, homes, names, levels, page, value, entries)
}

#[cycle(text)]
fn put_new_dict<'a>(
    arena: &'a Arena,
    homes: &'a Homes<'a>,
    names: &'a [Text],
    levels: u32,
    page: &mut Page,
    value: Value,
    entries: &'a Entries,
) -> Result<(), StoreFault>
    ensures answer { Puts (say_new_dict (say_inside names.now (look arena.now homes.now) levels page.old.path.items value)
        entries.now) page.old result page.new }
    ensures less { page.new.steps ≤ page.old.steps }
    ensures path { OnOk result (page.new.path.items ≡ page.old.path.items) }
{
    page.say("{")?;
    put_inner_entries(arena, homes, names, levels, page, value, entries)?;
    page.say("}")?;
    Ok(())
}

#[cycle(text)]
fn put_inner_items<'a>(
    arena: &'a Arena,
    homes: &'a Homes<'a>,
    names: &'a [Text],
    levels: u32,
    page: &mut Page,
    value: Value,
    items: &'a Values,
) -> Result<(), StoreFault>
    ensures answer { Puts (say_items (say_inside names.now (look arena.now homes.now) levels page.old.path.items value)
        items.now) page.old result page.new }
    ensures less { page.new.steps ≤ page.old.steps }
    ensures path { OnOk result (page.new.path.items ≡ page.old.path.items) }
{
    page.enter(value)?;
    put_items(arena, homes, names, levels, page, items)?;
    page.leave();
    Ok(())
}

#[cycle(text)]
#[tactic(auto, using(crate::proofs::Texts::all_said_next))]
fn put_items<'a>(
    arena: &'a Arena,
    homes: &'a Homes<'a>,
    names: &'a [Text],
    levels: u32,
    page: &mut Page,
    items: &'a Values,
) -> Result<(), StoreFault>
    ensures answer { Puts (say_items (text names.now (look arena.now homes.now) levels page.old.path.items) items.now) page.old
        result page.new }
    ensures less { page.new.steps ≤ page.old.steps }
    ensures path { OnOk result (page.new.path.items ≡ page.old.path.items) }
{
    let count = items.len();
    for i in 0..count {
        put_place(arena, homes, names, levels, page, items, i)?;
    }
    Ok(())
}

#[cycle(text)]
fn put_place<'a>(
    arena: &'a Arena,
    homes: &'a Homes<'a>,
    names: &'a [Text],
    levels: u32,
    page: &mut Page,
    items: &'a Values,
    i: usize,
) -> Result<(), StoreFault>
    ensures answer { Puts (say_place (text names.now (look arena.now homes.now) levels page.old.path.items) items.now i) page.old
        result page.new }
    ensures less { page.new.steps ≤ page.old.steps }
    ensures path { OnOk result (page.new.path.items ≡ page.old.path.items) }
{
    page.say_separator(i)?;
    match items.get(i) {
        Some(item) => put_text(arena, homes, names, levels, page, item)?,
        None => page.say("")?,
    }
    Ok(())
}

#[cycle(text)]
fn put_inner_entries<'a>(
    arena: &'a Arena,
    homes: &'a Homes<'a>,
    names: &'a [Text],
    levels: u32,
    page: &mut Page,
    value: Value,
    entries: &'a Entries,
) -> Result<(), StoreFault>
    ensures answer { Puts (say_entries (say_inside names.now (look arena.now homes.now) levels page.old.path.items value)
        entries.now) page.old result page.new }
    ensures less { page.new.steps ≤ page.old.steps }
    ensures path { OnOk result (page.new.path.items ≡ page.old.path.items) }
{
    page.enter(value)?;
    put_entries(arena, homes, names, levels, page, entries)?;
    page.leave();
    Ok(())
}

#[cycle(text)]
#[tactic(auto, using(crate::proofs::Texts::all_said_next))]
fn put_entries<'a>(
    arena: &'a Arena,
    homes: &'a Homes<'a>,
    names: &'a [Text],
    levels: u32,
    page: &mut Page,
    entries: &'a Entries,
) -> Result<(), StoreFault>
    ensures answer { Puts (say_entries (text names.now (look arena.now homes.now) levels page.old.path.items) entries.now)
        page.old result page.new }
    ensures less { page.new.steps ≤ page.old.steps }
    ensures path { OnOk result (page.new.path.items ≡ page.old.path.items) }
{
    let count = entries.len();
    for i in 0..count {
        put_entry(arena, homes, names, levels, page, entries, i)?;
    }
    Ok(())
}

#[cycle(text)]
fn put_entry<'a>(
    arena: &'a Arena,
    homes: &'a Homes<'a>,
    names: &'a [Text],
    levels: u32,
    page: &mut Page,
    entries: &'a Entries,
    i: usize,
) -> Result<(), StoreFault>
    ensures answer { Puts (say_entry (text names.now (look arena.now homes.now) levels page.old.path.items) entries.now i)
        page.old result page.new }
    ensures less { page.new.steps ≤ page.old.steps }
    ensures path { OnOk result (page.new.path.items ≡ page.old.path.items) }
{
    page.say_separator(i)?;
    match entries.get(i) {
        Some((key, value)) => {
            put_text(arena, homes, names, levels, page, key)?;
            page.say(": ")?;
            put_text(arena, homes, names, levels, page, value)?;
        }
        None => page.say("")?,
    }
    Ok(())
}

/// Whether two values lead to one cell.
fn same_address(x: Value, y: Value) -> bool
    ensures { result ≡ same_address x y }
{
    match (x, y) {
        (Value::Ref { home: h, at: a }, Value::Ref { home: k, at: b }) => h == k && a == b,
        _ => false,
    }
}

impl Page {
    /// Puts more after the text.
    fn say(&mut self, more: &str) -> Result<(), AllocError>
        ensures said { OnOk result (self.new.out ≡ self.old.out ++ more.now) }
        ensures path { self.new.path.items ≡ self.old.path.items }
        ensures steps { self.new.steps ≡ self.old.steps }
    {
        self.out.say(more)
    }

    fn say_bool(&mut self, b: bool) -> Result<(), AllocError>
        ensures said { OnOk result (self.new.out ≡ self.old.out ++ bool_text b) }
        ensures path { self.new.path.items ≡ self.old.path.items }
        ensures steps { self.new.steps ≡ self.old.steps }
    {
        if b {
            self.say("True")
        } else {
            self.say("False")
        }
    }

    fn say_int(&mut self, n: i64) -> Result<(), AllocError>
        ensures said { OnOk result (self.new.out ≡ self.old.out ++ signed_decimal n) }
        ensures path { self.new.path.items ≡ self.old.path.items }
        ensures steps { self.new.steps ≡ self.old.steps }
    {
        let digits = format!(in self.alloc; "{n}")?;
        self.say(digits.as_str())
    }

    fn say_built_in(&mut self, names: &[Text], built_in: BuiltIn) -> Result<(), AllocError>
        ensures said { OnOk result (self.new.out
            ≡ after self.old.out (parts_of_built_in names.now built_in)) }
        ensures path { self.new.path.items ≡ self.old.path.items }
        ensures steps { self.new.steps ≡ self.old.steps }
    {
        if built_in.is_function() {
            self.say("<built-in function ")?;
            self.say(built_in.name_among(names))?;
            return self.say(">");
        }
        self.say("<module \"")?;
        self.say(built_in.name_among(names))?;
        self.say("\">")
    }

    fn say_function(&mut self, name: &Text) -> Result<(), AllocError>
        ensures said { OnOk result (self.new.out
            ≡ after self.old.out (function_parts name.now)) }
        ensures path { self.new.path.items ≡ self.old.path.items }
        ensures steps { self.new.steps ≡ self.old.steps }
    {
        self.say("<function ")?;
        self.out.put(name)?;
        self.say(">")
    }

    /// Puts the name of a field and a sign after the text.
    fn say_name(&mut self, name: &Text) -> Result<(), AllocError>
        ensures said { OnOk result (self.new.out ≡ self.old.out ++ name.now ++ codes " = ") }
        ensures path { self.new.path.items ≡ self.old.path.items }
        ensures steps { self.new.steps ≡ self.old.steps }
    {
        self.out.put(name)?;
        self.say(" = ")
    }

    fn say_method(&mut self, method: Method) -> Result<(), AllocError>
        ensures said { OnOk result (self.new.out
            ≡ after self.old.out (method_parts method)) }
        ensures path { self.new.path.items ≡ self.old.path.items }
        ensures steps { self.new.steps ≡ self.old.steps }
    {
        self.say("<built-in method ")?;
        self.say(method.name())?;
        self.say(" of ")?;
        self.say(method.receiver())?;
        self.say(" value>")
    }

    fn say_range(&mut self, range: Range) -> Result<(), AllocError>
        ensures said { OnOk result (self.new.out ≡ range_after self.old.out range) }
        ensures path { self.new.path.items ≡ self.old.path.items }
        ensures steps { self.new.steps ≡ self.old.steps }
    {
        self.say("range(")?;
        self.say_bounds(range)?;
        self.say(")")
    }

    fn say_bounds(&mut self, range: Range) -> Result<(), AllocError>
        ensures said { OnOk result (self.new.out
            ≡ after self.old.out (bounds_parts range)) }
        ensures path { self.new.path.items ≡ self.old.path.items }
        ensures steps { self.new.steps ≡ self.old.steps }
    {
        if range.step != 1 {
            return self.say_three(range);
        }
        if range.start == 0 {
            return self.say_int(range.stop);
        }
        self.say_int(range.start)?;
        self.say(", ")?;
        self.say_int(range.stop)
    }

    fn say_three(&mut self, range: Range) -> Result<(), AllocError>
        // It is long since it has each piece of the text, in order.
        ensures said { OnOk result (self.new.out ≡ self.old.out
            ++ signed_decimal range.start ++ codes ", " ++ signed_decimal range.stop ++ codes ", "
            ++ signed_decimal range.step) }
        ensures path { self.new.path.items ≡ self.old.path.items }
        ensures steps { self.new.steps ≡ self.old.steps }
    {
        self.say_int(range.start)?;
        self.say(", ")?;
        self.say_int(range.stop)?;
        self.say(", ")?;
        self.say_int(range.step)
    }

    fn say_separator(&mut self, i: usize) -> Result<(), AllocError>
        ensures said { OnOk result (self.new.out ≡ self.old.out ++ separator i) }
        ensures path { self.new.path.items ≡ self.old.path.items }
        ensures steps { self.new.steps ≡ self.old.steps }
    {
        if i == 0 { self.say("") } else { self.say(", ") }
    }

    fn say_tuple_end(&mut self, items: &Values) -> Result<(), AllocError>
        ensures said { OnOk result (self.new.out ≡ self.old.out ++ tuple_end items.now) }
        ensures path { self.new.path.items ≡ self.old.path.items }
        ensures steps { self.new.steps ≡ self.old.steps }
    {
        if items.len() == 1 {
            self.say(",)")
        } else {
            self.say(")")
        }
    }

    fn say_quoted(&mut self, text: &Text) -> Result<(), AllocError>
        ensures said { OnOk result (self.new.out ≡ self.old.out ++ quoted text.now) }
        ensures path { self.new.path.items ≡ self.old.path.items }
        ensures steps { self.new.steps ≡ self.old.steps }
    {
        self.out.put_quoted(text)
    }

    /// Whether the text is now inside this list or dictionary.
    fn is_within(&self, value: Value) -> bool
        ensures { result ≡ on_path value self.now.path.items }
    {
        self.path.iter().any(|v| same_address(value, *v))
    }

    /// Enters a list or dictionary.
    fn enter(&mut self, value: Value) -> Result<(), AllocError>
        ensures path { OnOk result (self.new.path.items ≡ self.old.path.items ++ value ∷ []) }
        ensures said { self.new.out ≡ self.old.out }
        ensures steps { self.new.steps ≡ self.old.steps }
    {
        self.path.push(value)?;
        Ok(())
    }

    /// Leaves the last list or dictionary.
    fn leave(&mut self)
        ensures path { self.new.path.items ≡ take (vec_len self.old.path - 1) self.old.path.items }
        ensures said { self.new.out ≡ self.old.out }
        ensures steps { self.new.steps ≡ self.old.steps }
    {
        self.path.truncate(self.path.len().saturating_sub(1));
    }
}
