//! The fields of formats: which of them a dialect has, and what they take.

use star_dialect::Dialect;

/// The letters that a format may have after a `%`.
fn letters_of(dialect: Dialect) -> &'static [char] {
    match dialect {
        Dialect::Core => &['s', 'r', 'd'],
        Dialect::Extended => &['s', 'r', 'd', 'x', 'X', 'o', 'c'],
    }
}

/// The letters of the extended language alone, and what begins a name there.
const FURTHER: &[char] = &['x', 'X', 'o', 'c', '('];

/// What comes after a name in parentheses, if there is one.
fn after_name(format: &str) -> &str {
    match format.find(')') {
        Some(at) => format.get(at.saturating_add(1)..).unwrap_or(""),
        None => format,
    }
}

/// Whether a field is no format of a dialect: its letter after a `%` is not known, or is not there.
pub(crate) fn is_unknown(dialect: Dialect, field: &str) -> bool {
    let Some(rest) = field.strip_prefix('%') else {
        return false;
    };
    let mut letters = after_name(rest).chars();
    match (letters.next(), letters.next()) {
        (Some(letter), None) => !letters_of(dialect).contains(&letter),
        _ => true,
    }
}

/// Whether the extended language may have a field.
fn is_further(field: &str) -> bool {
    match field.get(1..).unwrap_or("").chars().next() {
        Some(letter) => FURTHER.contains(&letter),
        None => false,
    }
}

/// The help for a format that a dialect does not have.
pub(crate) fn of_format(dialect: Dialect, field: &str) -> &'static str {
    match dialect {
        Dialect::Core if is_further(field) => {
            "the extended language has it: `--language extended`; here a format has `%s`, `%r`, `%d` and `%%`"
        }
        Dialect::Core => "a format has `%s`, `%r`, `%d` and `%%`",
        Dialect::Extended => {
            "a format has `%s`, `%r`, `%d`, `%x`, `%X`, `%o`, `%c`, `%%`, and `%(key)s` for a dict"
        }
    }
}

/// What a field takes, which a value does not suit.
pub(crate) fn taken_by(field: &str) -> &'static str {
    if field.ends_with(')') {
        return "` takes a dict, not ";
    }
    if field.ends_with('c') {
        return "` takes a string of one character, or the number of one, not ";
    }
    "` takes an int, not "
}

/// The help for `!r` and `!s` in a format of the core language.
pub(crate) const CONVERSIONS: &str =
    "the extended language has `{!r}` and `{!s}`: `--language extended`; here write `{}` and `repr(x)`";

/// Whether the text of a format has a field that ends in a conversion.
pub(crate) fn has_conversion(format: &str) -> bool {
    format.contains("!r}") || format.contains("!s}")
}
