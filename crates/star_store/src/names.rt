//! `BuiltIn` and `Method`: all built-in functions and all methods, with their names and the methods' receivers.
//!
//! They are enums with names of their own, so `repr` needs no table but for the recorded functions. A method also has the type of its receiver:
//! `list.clear` and `dict.clear` are two.

ghost use Rattle.std.specs.Prelude.{◌≡◌};
ghost use Rattle.star_store.specs.Names.{built_in_name, built_in_number, is_function, method_name, name_among, receiver_type, set_method_name};

use star_strings::table::StringMethod;
use star_text::Text;

/// A built-in function of the outermost block, the module `json` there, a member of it, or a recorded function.
#[derive(Clone, Copy, Debug, PartialEq, Eq)]
pub enum BuiltIn {
    Abs,
    All,
    Any,
    Bool,
    Dict,
    Enumerate,
    Fail,
    Int,
    Len,
    List,
    Max,
    Min,
    Print,
    Range,
    Repr,
    Reversed,
    Sorted,
    Str,
    Tuple,
    Type,
    Zip,
    /// From here on those of the extended language.
    Chr,
    Dir,
    Getattr,
    Hasattr,
    Hash,
    /// The module `json`: the only one here that is no function.
    Json,
    Ord,
    Set,
    Struct,
    /// From here on the members of `json`.
    JsonDecode,
    JsonEncode,
    JsonEncodeIndent,
    /// A function whose calls are recorded, by the place of its name among the recorded names.
    Recorded(u32),
}

/// A method, with the type of its receiver.
#[derive(Clone, Copy, Debug, PartialEq, Eq)]
pub enum Method {
    ListAppend,
    ListClear,
    ListExtend,
    ListIndex,
    ListInsert,
    ListPop,
    ListRemove,
    DictClear,
    DictGet,
    DictItems,
    DictKeys,
    DictPop,
    DictPopitem,
    DictSetdefault,
    DictUpdate,
    DictValues,
    StringEndswith,
    StringFind,
    StringFormat,
    StringJoin,
    StringLower,
    StringLstrip,
    StringReplace,
    StringRstrip,
    StringSplit,
    StringStartswith,
    StringStrip,
    StringUpper,
    /// A method of the table of `star_strings`.
    OfString(StringMethod),
    /// A method of sets.
    OfSet(SetMethod),
}

/// A method of sets.
#[derive(Clone, Copy, Debug, PartialEq, Eq)]
pub enum SetMethod {
    Add,
    Clear,
    Difference,
    DifferenceUpdate,
    Discard,
    Intersection,
    IntersectionUpdate,
    Isdisjoint,
    Issubset,
    Issuperset,
    Pop,
    Remove,
    SymmetricDifference,
    SymmetricDifferenceUpdate,
    Union,
    Update,
}

impl BuiltIn {
    /// The place among the built-in functions: those of the core come first, those of the extended language next, then
    /// the members of `json`, each in order of their names, and then the recorded functions.
    pub fn number(self) -> u64
        ensures { result ≡ built_in_number self }
    {
        match self {
            BuiltIn::Abs => 0,
            BuiltIn::All => 1,
            BuiltIn::Any => 2,
            BuiltIn::Bool => 3,
            BuiltIn::Dict => 4,
            BuiltIn::Enumerate => 5,
            BuiltIn::Fail => 6,
            BuiltIn::Int => 7,
            BuiltIn::Len => 8,
            BuiltIn::List => 9,
            BuiltIn::Max => 10,
            BuiltIn::Min => 11,
            BuiltIn::Print => 12,
            BuiltIn::Range => 13,
            BuiltIn::Repr => 14,
            BuiltIn::Reversed => 15,
            BuiltIn::Sorted => 16,
            BuiltIn::Str => 17,
            BuiltIn::Tuple => 18,
            BuiltIn::Type => 19,
            BuiltIn::Zip => 20,
            BuiltIn::Chr => 21,
            BuiltIn::Dir => 22,
            BuiltIn::Getattr => 23,
            BuiltIn::Hasattr => 24,
            BuiltIn::Hash => 25,
            BuiltIn::Json => 26,
            BuiltIn::Ord => 27,
            BuiltIn::Set => 28,
            BuiltIn::Struct => 29,
            BuiltIn::JsonDecode => 30,
            BuiltIn::JsonEncode => 31,
            BuiltIn::JsonEncodeIndent => 32,
            BuiltIn::Recorded(place) => 33 + place as u64,
        }
    }

    /// Whether it is a function: all but the module `json` are.
    pub fn is_function(self) -> bool
        ensures { result ≡ is_function self }
    {
        !matches!(self, BuiltIn::Json)
    }

    /// Its name: in the outermost block, or with that of its module before it. Empty for a recorded function.
    pub fn name(self) -> &'static str
        ensures { result.now ≡ built_in_name self }
    {
        match self {
            BuiltIn::Abs => "abs",
            BuiltIn::All => "all",
            BuiltIn::Any => "any",
            BuiltIn::Bool => "bool",
            BuiltIn::Dict => "dict",
            BuiltIn::Enumerate => "enumerate",
            BuiltIn::Fail => "fail",
            BuiltIn::Int => "int",
            BuiltIn::Len => "len",
            BuiltIn::List => "list",
            BuiltIn::Max => "max",
            BuiltIn::Min => "min",
            BuiltIn::Print => "print",
            BuiltIn::Range => "range",
            BuiltIn::Repr => "repr",
            BuiltIn::Reversed => "reversed",
            BuiltIn::Sorted => "sorted",
            BuiltIn::Str => "str",
            BuiltIn::Tuple => "tuple",
            BuiltIn::Type => "type",
            BuiltIn::Zip => "zip",
            BuiltIn::Chr => "chr",
            BuiltIn::Dir => "dir",
            BuiltIn::Getattr => "getattr",
            BuiltIn::Hasattr => "hasattr",
            BuiltIn::Hash => "hash",
            BuiltIn::Json => "json",
            BuiltIn::Ord => "ord",
            BuiltIn::Set => "set",
            BuiltIn::Struct => "struct",
            BuiltIn::JsonDecode => "json.decode",
            BuiltIn::JsonEncode => "json.encode",
            BuiltIn::JsonEncodeIndent => "json.encode_indent",
            BuiltIn::Recorded(_) => "",
        }
    }

    /// Its name, given the recorded names.
    pub fn name_among(self, names: &[Text]) -> &str
        ensures { result.now ≡ name_among names.now self }
    {
        match self {
            BuiltIn::Recorded(place) => match names.get(place as usize) {
                Some(name) => name.as_str(),
                None => "",
            },
            own => own.name(),
        }
    }
}

impl Method {
    /// The name of the receiver's type, and the name after the dot.
    fn names(self) -> (&'static str, &'static str)
        ensures receiver { result.0.now ≡ receiver_type self }
        ensures name { result.1.now ≡ method_name self }
    {
        match self {
            Method::ListAppend => ("list", "append"),
            Method::ListClear => ("list", "clear"),
            Method::ListExtend => ("list", "extend"),
            Method::ListIndex => ("list", "index"),
            Method::ListInsert => ("list", "insert"),
            Method::ListPop => ("list", "pop"),
            Method::ListRemove => ("list", "remove"),
            Method::DictClear => ("dict", "clear"),
            Method::DictGet => ("dict", "get"),
            Method::DictItems => ("dict", "items"),
            Method::DictKeys => ("dict", "keys"),
            Method::DictPop => ("dict", "pop"),
            Method::DictPopitem => ("dict", "popitem"),
            Method::DictSetdefault => ("dict", "setdefault"),
            Method::DictUpdate => ("dict", "update"),
            Method::DictValues => ("dict", "values"),
            Method::StringEndswith => ("string", "endswith"),
            Method::StringFind => ("string", "find"),
            Method::StringFormat => ("string", "format"),
            Method::StringJoin => ("string", "join"),
            Method::StringLower => ("string", "lower"),
            Method::StringLstrip => ("string", "lstrip"),
            Method::StringReplace => ("string", "replace"),
            Method::StringRstrip => ("string", "rstrip"),
            Method::StringSplit => ("string", "split"),
            Method::StringStartswith => ("string", "startswith"),
            Method::StringStrip => ("string", "strip"),
            Method::StringUpper => ("string", "upper"),
            Method::OfString(method) => ("string", method.name()),
            Method::OfSet(method) => ("set", method.name()),
        }
    }

    /// The name after the dot.
    pub fn name(self) -> &'static str
        ensures { result.now ≡ method_name self }
    {
        self.names().1
    }

    /// The name of the receiver's type.
    pub fn receiver(self) -> &'static str
        ensures { result.now ≡ receiver_type self }
    {
        self.names().0
    }
}

impl SetMethod {
    /// Its name.
    pub fn name(self) -> &'static str
        ensures { result.now ≡ set_method_name self }
    {
        match self {
            SetMethod::Add => "add",
            SetMethod::Clear => "clear",
            SetMethod::Difference => "difference",
            SetMethod::DifferenceUpdate => "difference_update",
            SetMethod::Discard => "discard",
            SetMethod::Intersection => "intersection",
            SetMethod::IntersectionUpdate => "intersection_update",
            SetMethod::Isdisjoint => "isdisjoint",
            SetMethod::Issubset => "issubset",
            SetMethod::Issuperset => "issuperset",
            SetMethod::Pop => "pop",
            SetMethod::Remove => "remove",
            SetMethod::SymmetricDifference => "symmetric_difference",
            SetMethod::SymmetricDifferenceUpdate => "symmetric_difference_update",
            SetMethod::Union => "union",
            SetMethod::Update => "update",
        }
    }
}
