//! The arguments that built-in functions and methods take.

use star_dialect::Dialect;
use star_found::about::Type;
use star_strings::table::{Entry, Kind, StringMethod};

/// The kind that a value has to be of.
#[derive(Clone, Copy)]
pub(crate) enum Wanted {
    Anything,
    Int,
    Bool,
    Text,
    /// A string, or a tuple of strings.
    Texts,
    /// A string or None.
    MaybeText,
    /// An int or None.
    MaybeInt,
    /// A list, tuple, dict, set or range.
    Iterable,
    /// An iterable or a string.
    Sized,
    /// A string, an int or a bool.
    Numeral,
    /// A dict, or an iterable of pairs.
    Pairs,
    /// Any value except a list, a dict or a set.
    Key,
}

impl Wanted {
    /// Whether a value of this type may be of this kind.
    pub(crate) fn is_met(self, kind: Type) -> bool {
        let is_iterable = matches!(
            kind,
            Type::List | Type::Tuple | Type::Dict | Type::Set | Type::Range
        );
        match self {
            Wanted::Anything => true,
            Wanted::Int => matches!(kind, Type::Int),
            Wanted::Bool => matches!(kind, Type::Bool),
            Wanted::Text => matches!(kind, Type::Text),
            Wanted::Texts => matches!(kind, Type::Text | Type::Tuple),
            Wanted::MaybeText => matches!(kind, Type::Text | Type::Nothing),
            Wanted::MaybeInt => matches!(kind, Type::Int | Type::Nothing),
            Wanted::Iterable | Wanted::Pairs => is_iterable,
            Wanted::Sized => is_iterable || matches!(kind, Type::Text),
            Wanted::Numeral => matches!(kind, Type::Text | Type::Int | Type::Bool),
            Wanted::Key => !matches!(kind, Type::List | Type::Dict | Type::Set),
        }
    }

    /// Its name, with an article.
    pub(crate) fn text(self) -> &'static str {
        match self {
            Wanted::Anything => "a value",
            Wanted::Int => "an int",
            Wanted::Bool => "a bool",
            Wanted::Text => "a string",
            Wanted::Texts => "a string or a tuple of strings",
            Wanted::MaybeText => "a string or None",
            Wanted::MaybeInt => "an int or None",
            Wanted::Iterable => "a list, tuple, dict or range",
            Wanted::Sized => "a string, list, tuple, dict or range",
            Wanted::Numeral => "a string, an int or a bool",
            Wanted::Pairs => "a dict, or an iterable of pairs",
            Wanted::Key => "a key, which is no list and no dict",
        }
    }
}

/// The first and second argument of built-in functions that do not take every value.
const FUNCTIONS: &[(&'static str, Wanted, Wanted)] = &[
    ("abs", Wanted::Int, Wanted::Anything),
    ("all", Wanted::Iterable, Wanted::Anything),
    ("any", Wanted::Iterable, Wanted::Anything),
    ("list", Wanted::Iterable, Wanted::Anything),
    ("tuple", Wanted::Iterable, Wanted::Anything),
    ("reversed", Wanted::Iterable, Wanted::Anything),
    ("sorted", Wanted::Iterable, Wanted::Anything),
    ("dict", Wanted::Pairs, Wanted::Anything),
    ("enumerate", Wanted::Iterable, Wanted::Int),
    ("int", Wanted::Numeral, Wanted::Anything),
    ("len", Wanted::Sized, Wanted::Anything),
    ("range", Wanted::Int, Wanted::Int),
    ("zip", Wanted::Iterable, Wanted::Iterable),
    ("chr", Wanted::Int, Wanted::Anything),
    ("getattr", Wanted::Anything, Wanted::Text),
    ("hasattr", Wanted::Anything, Wanted::Text),
    ("hash", Wanted::Text, Wanted::Anything),
    ("json.decode", Wanted::Text, Wanted::Anything),
    ("ord", Wanted::Text, Wanted::Anything),
    ("set", Wanted::Iterable, Wanted::Anything),
];

/// The first and second argument of methods that do not take every value.
const METHODS: &[(Type, &'static str, Wanted, Wanted)] = &[
    (Type::List, "extend", Wanted::Iterable, Wanted::Anything),
    (Type::List, "insert", Wanted::Int, Wanted::Anything),
    (Type::List, "pop", Wanted::Int, Wanted::Anything),
    (Type::Dict, "get", Wanted::Key, Wanted::Anything),
    (Type::Dict, "pop", Wanted::Key, Wanted::Anything),
    (Type::Dict, "setdefault", Wanted::Key, Wanted::Anything),
    (Type::Dict, "update", Wanted::Pairs, Wanted::Anything),
    (Type::Set, "add", Wanted::Key, Wanted::Anything),
    (Type::Set, "difference", Wanted::Iterable, Wanted::Iterable),
    (
        Type::Set,
        "difference_update",
        Wanted::Iterable,
        Wanted::Iterable,
    ),
    (Type::Set, "discard", Wanted::Key, Wanted::Anything),
    (
        Type::Set,
        "intersection",
        Wanted::Iterable,
        Wanted::Iterable,
    ),
    (
        Type::Set,
        "intersection_update",
        Wanted::Iterable,
        Wanted::Iterable,
    ),
    (Type::Set, "isdisjoint", Wanted::Iterable, Wanted::Anything),
    (Type::Set, "issubset", Wanted::Iterable, Wanted::Anything),
    (Type::Set, "issuperset", Wanted::Iterable, Wanted::Anything),
    (Type::Set, "remove", Wanted::Key, Wanted::Anything),
    (
        Type::Set,
        "symmetric_difference",
        Wanted::Iterable,
        Wanted::Anything,
    ),
    (
        Type::Set,
        "symmetric_difference_update",
        Wanted::Iterable,
        Wanted::Anything,
    ),
    (Type::Set, "union", Wanted::Iterable, Wanted::Iterable),
    (Type::Set, "update", Wanted::Iterable, Wanted::Iterable),
    (Type::Text, "startswith", Wanted::Texts, Wanted::Anything),
    (Type::Text, "endswith", Wanted::Texts, Wanted::Anything),
    (Type::Text, "find", Wanted::Text, Wanted::Int),
    (Type::Text, "join", Wanted::Iterable, Wanted::Anything),
    (Type::Text, "replace", Wanted::Text, Wanted::Text),
    (Type::Text, "split", Wanted::Text, Wanted::Int),
    (Type::Text, "strip", Wanted::Text, Wanted::Anything),
    (Type::Text, "lstrip", Wanted::Text, Wanted::Anything),
    (Type::Text, "rstrip", Wanted::Text, Wanted::Anything),
];

fn of_function(name: &str) -> (Wanted, Wanted) {
    for (function, first, second) in FUNCTIONS {
        if *function == name {
            return (*first, *second);
        }
    }
    (Wanted::Anything, Wanted::Anything)
}

/// The row of a method of strings that only the extended language has.
fn row(name: &str, receiver: Type) -> Option<Entry> {
    if receiver != Type::Text {
        return None;
    }
    match StringMethod::named(name) {
        Some(method) => method.entry(),
        None => None,
    }
}

/// What the n-th argument of a row has to be.
fn wanted_at(entry: &Entry, n: usize) -> Wanted {
    match entry.wants.get(n) {
        Some(Kind::Text) => Wanted::Text,
        Some(Kind::MaybeText) => Wanted::MaybeText,
        Some(Kind::Texts) => Wanted::Texts,
        Some(Kind::Int) => Wanted::Int,
        Some(Kind::Place) => Wanted::MaybeInt,
        Some(Kind::Bool) => Wanted::Bool,
        None => Wanted::Anything,
    }
}

fn of_method(name: &str, receiver: Type) -> (Wanted, Wanted) {
    for (kind, method, first, second) in METHODS {
        if *kind == receiver && *method == name {
            return (*first, *second);
        }
    }
    match row(name, receiver) {
        Some(entry) => (wanted_at(&entry, 0), wanted_at(&entry, 1)),
        None => (Wanted::Anything, Wanted::Anything),
    }
}

/// Whether a value of this type has a method with this name in the extended language alone.
pub(crate) fn is_extended(name: &str, receiver: Type) -> bool {
    match row(name, receiver) {
        Some(_) => !methods(receiver).contains(&name),
        None => false,
    }
}

/// The first and second argument of a built-in function, or of a method of a receiver of a type. `has_base` says that
/// `int` is given a base.
pub(crate) fn wanted_by(name: &str, receiver: Option<Type>, has_base: bool) -> (Wanted, Wanted) {
    match receiver {
        Some(receiver) => of_method(name, receiver),
        None if has_base && name == "int" => (Wanted::Text, Wanted::Int),
        None => of_function(name),
    }
}

/// How many values built-in functions take, if not one.
const FUNCTION_COUNTS: &[(&'static str, &'static str)] = &[
    ("bool", "at most one value"),
    ("list", "at most one value"),
    ("tuple", "at most one value"),
    ("dict", "at most one value"),
    ("enumerate", "one or two values"),
    ("max", "at least one value"),
    ("min", "at least one value"),
    ("range", "one to three ints"),
    ("getattr", "two or three values"),
    ("hasattr", "two values"),
    ("set", "at most one value"),
    ("struct", "values by name alone"),
];

/// How many values methods take, if not one.
const METHOD_COUNTS: &[(Type, &'static str, &'static str)] = &[
    (Type::List, "clear", "no value"),
    (Type::List, "insert", "two values"),
    (Type::List, "pop", "at most one value"),
    (Type::Dict, "clear", "no value"),
    (Type::Dict, "get", "one or two values"),
    (Type::Dict, "items", "no value"),
    (Type::Dict, "keys", "no value"),
    (Type::Dict, "pop", "one or two values"),
    (Type::Dict, "popitem", "no value"),
    (Type::Dict, "setdefault", "one or two values"),
    (Type::Dict, "update", "at most one value"),
    (Type::Dict, "values", "no value"),
    (Type::Set, "clear", "no value"),
    (Type::Set, "difference", "any number of values"),
    (Type::Set, "difference_update", "any number of values"),
    (Type::Set, "intersection", "any number of values"),
    (Type::Set, "intersection_update", "any number of values"),
    (Type::Set, "pop", "no value"),
    (Type::Set, "union", "any number of values"),
    (Type::Set, "update", "any number of values"),
    (Type::Text, "find", "one to three values"),
    (Type::Text, "lower", "no value"),
    (Type::Text, "lstrip", "at most one value"),
    (Type::Text, "replace", "two or three values"),
    (Type::Text, "rstrip", "at most one value"),
    (Type::Text, "split", "one or two values"),
    (Type::Text, "strip", "at most one value"),
    (Type::Text, "upper", "no value"),
];

fn function_count(dialect: Dialect, name: &str) -> &'static str {
    if let (Dialect::Extended, "int") = (dialect, name) {
        return "one value, and a base";
    }
    for (function, count) in FUNCTION_COUNTS {
        if *function == name {
            return *count;
        }
    }
    "one value"
}

/// How many values a row takes.
fn row_count(entry: &Entry) -> &'static str {
    match (entry.least, entry.wants.len()) {
        (0, 0) => "no value",
        (0, 1) => "at most one value",
        (0, _) => "at most two values",
        (_, 1) => "one value",
        _ => "one to three values",
    }
}

fn method_count(dialect: Dialect, name: &str, receiver: Type) -> &'static str {
    if let (Dialect::Extended, Type::List, "index") = (dialect, receiver, name) {
        return "one to three values";
    }
    for (kind, method, count) in METHOD_COUNTS {
        if *kind == receiver && *method == name {
            return *count;
        }
    }
    match row(name, receiver) {
        Some(entry) if is_extended(name, receiver) => row_count(&entry),
        _ => "one value",
    }
}

/// How many values a built-in function, or a method of a receiver of a type, takes.
pub(crate) fn count(dialect: Dialect, name: &str, receiver: Option<Type>) -> &'static str {
    match receiver {
        Some(receiver) => method_count(dialect, name, receiver),
        None => function_count(dialect, name),
    }
}

/// The methods of a type.
pub(crate) fn methods(kind: Type) -> &'static [&'static str] {
    match kind {
        Type::List => &[
            "append", "clear", "extend", "index", "insert", "pop", "remove",
        ],
        Type::Dict => &[
            "clear",
            "get",
            "items",
            "keys",
            "pop",
            "popitem",
            "setdefault",
            "update",
            "values",
        ],
        Type::Set => &[
            "add",
            "clear",
            "difference",
            "difference_update",
            "discard",
            "intersection",
            "intersection_update",
            "isdisjoint",
            "issubset",
            "issuperset",
            "pop",
            "remove",
            "symmetric_difference",
            "symmetric_difference_update",
            "union",
            "update",
        ],
        Type::Text => &[
            "endswith",
            "find",
            "format",
            "join",
            "lower",
            "lstrip",
            "replace",
            "rstrip",
            "split",
            "startswith",
            "strip",
            "upper",
        ],
        _ => &[],
    }
}
