//! What to write in place of a method or an argument that other dialects have.

use star_dialect::Dialect;
use star_found::about::Type;

/// The help for methods that are missing, by the type of their value.
const METHODS: &[(Type, &'static str, &'static str)] = &[
    (Type::Text, "encode", "a string is UTF-8 already"),
    (
        Type::Text,
        "capitalize",
        "write `s[:1].upper() + s[1:].lower()`",
    ),
    (Type::Text, "count", "write `len(s.split(x)) - 1`"),
    (Type::Text, "elems", "write `[s[i] for i in range(len(s))]`"),
    (
        Type::Text,
        "index",
        "write `s.find(x)`, which is -1 for none",
    ),
    (
        Type::Text,
        "isdigit",
        "write `s != \"\" and s.strip(\"0123456789\") == \"\"`",
    ),
    (
        Type::Text,
        "partition",
        "write `i = s.find(x)`, then `s[:i]` and `s[i + len(x):]`",
    ),
    (
        Type::Text,
        "removeprefix",
        "write `s[len(x):] if s.startswith(x) else s`",
    ),
    (
        Type::Text,
        "removesuffix",
        "write `s[:len(s) - len(x)] if s.endswith(x) else s`",
    ),
    (
        Type::Text,
        "rfind",
        "write `s.split(x)`, and take its parts from the end",
    ),
    (
        Type::Text,
        "rsplit",
        "write `s.split(x)`, and take its parts from the end",
    ),
    (Type::Text, "splitlines", "write `s.split(\"\\n\")`"),
    (
        Type::Text,
        "title",
        "write `\" \".join([w[:1].upper() + w[1:].lower() for w in s.split(\" \")])`",
    ),
    (Type::Dict, "has_key", "write `key in d`"),
    (Type::Dict, "iteritems", "write `d.items()`"),
    (Type::Dict, "copy", "write `dict(d)`"),
    (
        Type::List,
        "sort",
        "write `sorted(xs)`, which is a new list",
    ),
    (
        Type::List,
        "reverse",
        "write `reversed(xs)`, which is a new list",
    ),
    (Type::List, "copy", "write `list(xs)`"),
    (
        Type::List,
        "count",
        "write `len([x for x in xs if x == y])`",
    ),
    (Type::List, "push", "write `xs.append(x)`"),
    (Type::List, "add", "write `xs.append(x)`"),
];

/// The help for `max` and `min` with `key`.
const KEY: &str = "`key = f` is in the extended language: `--language extended`";

/// The help for a wrong number of arguments of a built-in function or a method.
const ARGUMENTS: &[(&'static str, &'static str)] = &[
    (
        "sorted",
        "`key = f` is in the extended language: `--language extended`; here put the items into a dict by their keys, and sort those",
    ),
    ("max", KEY),
    ("min", KEY),
    (
        "int",
        "`int` reads a string in a base in the extended language: `--language extended`",
    ),
];

/// What to write in place of a method that a type does not have.
pub(crate) fn of_method(kind: Type, name: &str) -> Option<&'static str> {
    for (owner, method, help) in METHODS {
        if *owner == kind && *method == name {
            return Some(*help);
        }
    }
    None
}

/// The help for `split` without a separator.
const SPLIT: &str =
    "the core language needs the string to split by, as in `s.split(\" \")`; `--language extended` does not";

/// What to write if a built-in function or a method does not take so many arguments, or one of these names, in the core
/// language.
pub(crate) fn of_arguments(dialect: Dialect, name: &str, given: usize) -> Option<&'static str> {
    match dialect {
        Dialect::Core => of_core(name, given),
        Dialect::Extended => None,
    }
}

fn of_core(name: &str, given: usize) -> Option<&'static str> {
    if name == "split" && given == 0 {
        return Some(SPLIT);
    }
    for (function, help) in ARGUMENTS {
        if *function == name {
            return Some(*help);
        }
    }
    None
}
