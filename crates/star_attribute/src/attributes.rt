//! `x.m`: the attributes of a value, by name: the fields of a struct, the members of `json`, and the methods of each
//! type.

ghost use Rattle.std.specs.Prelude.{◌≡◌, IfOk, None, OnOk, map};
ghost use Rattle.std.specs.List.{find};
ghost use Rattle.std.specs.Option.{option_map};
ghost use Rattle.star_attribute.specs.Attributes.{attribute_of, of_dicts, shown_members, shown_names};
ghost use Rattle.star_machine.specs.Refines.{Refines};
ghost use Rattle.star_meaning.specs.Attributes as spec;
ghost use Rattle.star_machine.specs.Shown.{shown};
ghost use Rattle.star_meaning.specs.Values.{content, type_name};
ghost use Rattle.star_outline.specs.Names.{same_name};
ghost use Rattle.star_store.specs.Fields as fields;
ghost use Rattle.star_store.specs.Names.{method_name};
ghost use Rattle.star_store.specs.Store.{global_of};

use star_dialect::Dialect;
use star_machine::content::Content;
use star_machine::fault::{EvalError, fault_at};
use star_machine::machine::Machine;
use star_machine::setting::Setting;
use star_meaning::fault::FaultCode;
use star_store::names::{BuiltIn, Method, SetMethod};
use star_store::values::{Cell, Value};
use star_strings::table::StringMethod;
use star_text::Text;
use std::alloc::{AllocError, Global};
use std::cmp::Ordering;

/// The methods of lists.
const LIST_METHODS: [Method; 7] = [
    Method::ListAppend,
    Method::ListClear,
    Method::ListExtend,
    Method::ListIndex,
    Method::ListInsert,
    Method::ListPop,
    Method::ListRemove,
];

/// The methods of dictionaries.
const DICT_METHODS: [Method; 9] = [
    Method::DictClear,
    Method::DictGet,
    Method::DictItems,
    Method::DictKeys,
    Method::DictPop,
    Method::DictPopitem,
    Method::DictSetdefault,
    Method::DictUpdate,
    Method::DictValues,
];

/// The methods of strings.
const TEXT_METHODS: [Method; 12] = [
    Method::StringEndswith,
    Method::StringFind,
    Method::StringFormat,
    Method::StringJoin,
    Method::StringLower,
    Method::StringLstrip,
    Method::StringReplace,
    Method::StringRstrip,
    Method::StringSplit,
    Method::StringStartswith,
    Method::StringStrip,
    Method::StringUpper,
];

/// The methods of sets.
const SET_METHODS: [Method; 16] = [
    Method::OfSet(SetMethod::Add),
    Method::OfSet(SetMethod::Clear),
    Method::OfSet(SetMethod::Difference),
    Method::OfSet(SetMethod::DifferenceUpdate),
    Method::OfSet(SetMethod::Discard),
    Method::OfSet(SetMethod::Intersection),
    Method::OfSet(SetMethod::IntersectionUpdate),
    Method::OfSet(SetMethod::Isdisjoint),
    Method::OfSet(SetMethod::Issubset),
    Method::OfSet(SetMethod::Issuperset),
    Method::OfSet(SetMethod::Pop),
    Method::OfSet(SetMethod::Remove),
    Method::OfSet(SetMethod::SymmetricDifference),
    Method::OfSet(SetMethod::SymmetricDifferenceUpdate),
    Method::OfSet(SetMethod::Union),
    Method::OfSet(SetMethod::Update),
];

/// The first of some methods with a name.
fn named(methods: &[Method], name: &str) -> Option<Method>
    ensures { result ≡ find (λ m. same_name (method_name m) name.now) methods.now }
{
    for method in methods {
        if method.name() == name {
            return Some(*method);
        }
    }
    None
}

/// The method with a name that a list, a dictionary, a set or a string has without the table.
fn core_method_of(content: Content, name: &str) -> Option<Method>
    ensures { result ≡ spec.core_method_of (type_name (shown content.entry)) name.now }
{
    match content {
        Content::Held(Cell::List(_)) => named(&LIST_METHODS, name),
        Content::Held(Cell::Dict(_)) => named(&DICT_METHODS, name),
        Content::Held(Cell::Set(_)) => named(&SET_METHODS, name),
        Content::Held(Cell::Text(_)) => named(&TEXT_METHODS, name),
        _ => None,
    }
}

/// The method of the table with a name, if the value is a string and the dialect is the extended one.
fn in_table(dialect: Dialect, content: Content, name: &str) -> Option<Method>
    ensures { result ≡ spec.or_in_table dialect (type_name (shown content.entry)) name.now None }
{
    match (dialect, content) {
        (Dialect::Extended, Content::Held(Cell::Text(_))) => match StringMethod::named(name) {
            Some(method) => Some(Method::OfString(method)),
            None => None,
        },
        _ => None,
    }
}

/// The method with a name that a value has in a dialect.
fn method_of(dialect: Dialect, content: Content, name: &str) -> Option<Method>
    ensures { result ≡ spec.method_of dialect (type_name (shown content.entry)) name.now }
{
    match core_method_of(content, name) {
        Some(method) => Some(method),
        None => in_table(dialect, content, name),
    }
}

/// The members of `json`, in byte order of their names.
const JSON_MEMBERS: [(&'static str, BuiltIn); 3] = [
    ("decode", BuiltIn::JsonDecode),
    ("encode", BuiltIn::JsonEncode),
    ("encode_indent", BuiltIn::JsonEncodeIndent),
];

/// The members of a module.
fn members_of(owner: BuiltIn) -> &'static [(&'static str, BuiltIn)]
    ensures { shown_members result.now ≡ spec.members owner }
{
    match owner {
        BuiltIn::Json => &JSON_MEMBERS,
        _ => &[],
    }
}

/// The member of a module with a name.
fn member_of(owner: BuiltIn, name: &str) -> Option<Value>
    ensures { result ≡ global_of name.now (spec.members owner) }
{
    let members = members_of(owner);
    for member in members {
        if member.0 == name {
            return Some(Value::Builtin(member.1));
        }
    }
    None
}

/// An attribute: a field of a struct, a member of a module, or a method of the value's type.
#[derive(Clone, Copy)]
pub enum Attribute {
    Field(Value),
    OfType(Method),
}

/// The attribute with a name that a value has in a dialect.
#[inline(always)]
pub fn attribute_in(dialect: Dialect, content: Content, name: &str) -> Option<Attribute>
    ensures { option_map attribute_of result ≡ spec.attribute_in dialect (shown content.entry) name.now }
{
    if let Content::Held(Cell::Struct(fields)) = content {
        return match fields.get().get(name) {
            Some(value) => Some(Attribute::Field(value)),
            None => None,
        };
    }
    if let Content::BuiltInFunction(owner) = content {
        return match member_of(owner, name) {
            Some(value) => Some(Attribute::Field(value)),
            None => None,
        };
    }
    match method_of(dialect, content, name) {
        Some(method) => Some(Attribute::OfType(method)),
        None => None,
    }
}

/// The value of an attribute: that of a field or of a member is there; for a method 1 is paid, then it is a new bound
/// method.
pub fn attribute_value(
    machine: &mut Machine,
    line: usize,
    value: Value,
    attribute: Attribute,
) -> Result<Value, EvalError>
    ensures { Refines (spec.attribute_value line value (attribute_of attribute) machine.old) result machine.new }
{
    match attribute {
        Attribute::Field(field) => Ok(field),
        Attribute::OfType(method) => machine.build(line, 1, Cell::Bound(method, value)),
    }
}

/// `x.m`: the value of a field of a struct, a member of `json`, or a new bound method, for which 1 is paid. `BadType` if
/// the value has no attribute with this name.
#[inline(always)]
#[tactic(auto, unfolding(star_meaning::specs::Attributes::attribute))]
pub fn read_attribute(
    machine: &mut Machine,
    setting: &Setting,
    line: usize,
    value: Value,
    name: &str,
) -> Result<Value, EvalError>
    ensures { Refines (spec.attribute setting.now line value name.now machine.old) result machine.new }
{
    match attribute_in(setting.dialect(), machine.content(setting, value), name) {
        Some(attribute) => attribute_value(machine, line, value, attribute),
        None => Err(fault_at(FaultCode::BadType, line)),
    }
}

/// The methods of dictionaries.
fn dict_methods() -> &'static [Method]
    ensures { result.now ≡ of_dicts }
{
    &DICT_METHODS
}

/// The methods that a value has without the table.
#[tactic(auto, using(crate::proofs::Own::dict_names))]
fn core_methods(content: Content) -> &'static [Method]
    ensures { map method_name result.now ≡ spec.core_names (type_name (shown content.entry)) }
{
    match content {
        Content::Held(Cell::List(_)) => &LIST_METHODS,
        Content::Held(Cell::Dict(_)) => dict_methods(),
        Content::Held(Cell::Set(_)) => &SET_METHODS,
        Content::Held(Cell::Text(_)) => &TEXT_METHODS,
        _ => &[],
    }
}

/// The names of methods.
fn names_of(alloc: Global, methods: &[Method]) -> Result<Vec<&'static str>, AllocError>
    ensures { IfOk result (λ names. shown_names names.items ≡ map method_name methods.now) }
{
    let mut names = Vec::with_capacity(alloc, methods.len())?;
    for method in methods {
        names.push(method.name())?;
    }
    Ok(names)
}

/// The names of the methods of the table that a value has in a dialect.
fn table_names(
    alloc: Global,
    dialect: Dialect,
    content: Content,
) -> Result<Vec<&'static str>, AllocError>
    ensures { IfOk result (λ names. shown_names names.items
        ≡ spec.table_names dialect (type_name (shown content.entry))) }
{
    match (dialect, content) {
        (Dialect::Extended, Content::Held(Cell::Text(_))) => StringMethod::names(alloc),
        _ => Ok(Vec::new(alloc)),
    }
}

/// Puts a name among others in byte order, unless it is there.
fn put_name(names: &mut Vec<&'static str>, name: &'static str) -> Result<(), AllocError>
    ensures { OnOk result (shown_names names.new.items ≡ spec.put_name name.now (shown_names names.old.items)) }
{
    for i in 0..names.len() {
        match name.cmp(names[i]) {
            Ordering::Less => {
                names.insert(i, name)?;
                return Ok(());
            }
            Ordering::Equal => return Ok(()),
            Ordering::Greater => {}
        }
    }
    names.push(name)?;
    Ok(())
}

/// Names in byte order, each once.
fn names_once(alloc: Global, names: &[&'static str]) -> Result<Vec<&'static str>, AllocError>
    ensures { IfOk result (λ once. shown_names once.items ≡ spec.names_once (shown_names names.now)) }
{
    let mut once = Vec::new(alloc);
    for i in (0..names.len()).rev() {
        put_name(&mut once, names[i])?;
    }
    Ok(once)
}

/// The names of the methods that a value has in a dialect, in byte order.
fn method_names(
    alloc: Global,
    dialect: Dialect,
    content: Content,
) -> Result<Vec<&'static str>, AllocError>
    ensures { IfOk result (λ names. shown_names names.items
        ≡ spec.method_names dialect (type_name (shown content.entry))) }
{
    let mut names = names_of(alloc, core_methods(content))?;
    let more = table_names(alloc, dialect, content)?;
    names.extend_from_slice(more.as_slice())?;
    names_once(alloc, names.as_slice())
}

/// The names of the members of a module.
fn member_names(alloc: Global, owner: BuiltIn) -> Result<Vec<&'static str>, AllocError>
    ensures { IfOk result (λ names. shown_names names.items ≡ fields.names_of (spec.members owner)) }
{
    let members = members_of(owner);
    let mut names = Vec::with_capacity(alloc, members.len())?;
    for member in members {
        names.push(member.0)?;
    }
    Ok(names)
}

/// Texts of names.
fn texts_of(alloc: Global, names: &[&str]) -> Result<Vec<Text>, AllocError>
    ensures { IfOk result (λ texts. texts.items ≡ shown_names names.now) }
{
    let mut texts = Vec::with_capacity(alloc, names.len())?;
    for name in names {
        texts.push(Text::new(alloc, *name)?)?;
    }
    Ok(texts)
}

/// Texts that share the bytes of others.
fn shared(alloc: Global, names: &[Text]) -> Result<Vec<Text>, AllocError>
    ensures { IfOk result (λ texts. texts.items ≡ names.now) }
{
    let mut texts = Vec::with_capacity(alloc, names.len())?;
    for name in names {
        texts.push(name.share()?)?;
    }
    Ok(texts)
}

/// The names of the attributes that a value has in a dialect, in byte order. The error: an allocation failed.
pub fn attribute_names(
    alloc: Global,
    dialect: Dialect,
    content: Content,
) -> Result<Vec<Text>, AllocError>
    ensures { IfOk result (λ names. names.items ≡ spec.attribute_names dialect (shown content.entry)) }
{
    if let Content::Held(Cell::Struct(fields)) = content {
        return shared(alloc, fields.get().names());
    }
    if let Content::BuiltInFunction(owner) = content {
        let names = member_names(alloc, owner)?;
        return texts_of(alloc, names.as_slice());
    }
    let names = method_names(alloc, dialect, content)?;
    texts_of(alloc, names.as_slice())
}
