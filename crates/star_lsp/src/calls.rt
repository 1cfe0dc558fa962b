//! What `docs/LANGUAGE.md` says of built-in functions and methods, in a line each.

use star_dialect::Dialect;
use std::alloc::{AllocError, Global};
use std::str::Lines;

/// A line for each: the type of a method and a dot, its arguments, a colon, and what it does. `+` is before what only the
/// extended language has.
const LINES: &str = "\
abs(x): the absolute value of an int
all(it): whether all items are true
any(it): whether an item is true
bool([x]): the truth of x
dict([x], **kw): a new dictionary of pairs and named values
enumerate(it, [start]): pairs of a number and an item
fail(*x, sep=' '): ends the file with this text
int(x): the int of an int, a bool or a string
len(x): how many bytes, items or entries it has
list([it]): a new list of the items
max(x, ..): the greatest item
min(x, ..): the least item
print(*x, sep=' '): adds a line
range([start], stop, [step]): ints from start, before stop
repr(x): the text of x
reversed(it): a new list of the items from the last on
sorted(it, reverse=False): a new list of ints or strings in order
str(x): a string as it is, else the text of x
tuple([it]): a new tuple of the items
type(x): the name of the type
zip(*it): tuples of the items at the same index
+chr(i): the character with a number
+dir(x): the names of the attributes
+getattr(x, name, [d]): the attribute with a name
+hasattr(x, name): whether there is an attribute
+hash(s): a number of a string's bytes
+ord(s): the number of a character
+set([it]): a new set of the items
+struct(**kw): a new struct with these fields
+json.decode(s): the value of a JSON text
+json.encode(x): the JSON text of x
+json.encode_indent(x, prefix='', indent='\\t'): the JSON text of x, in lines
list.append(x): adds x at the end
list.clear(): takes all items out
list.extend(it): adds all items
list.index(x): the index of the first item equal to x
list.insert(i, x): puts x before the index i
list.pop([i]): takes the item at i out, by default the last
list.remove(x): takes the first item equal to x out
dict.clear(): takes all entries out
dict.get(k, [d]): the value of k, else d
dict.items(): a new list of pairs
dict.keys(): a new list of the keys
dict.pop(k, [d]): takes the value of k out
dict.popitem(): takes the first entry out
dict.setdefault(k, [d]): the value of k, which is d if k is new
dict.update([x], **kw): puts pairs and named values
dict.values(): a new list of the values
string.endswith(p): whether it ends with p, or with one of a tuple
string.find(t, [a, [b]]): the least index of t, else -1
string.format(*x, **kw): with values in place of braces
string.join(it): the items, which are strings, with this one between them
string.lower(): with ASCII letters in lower case
string.lstrip([c]): without characters of c, or white space, at the front
string.replace(old, new, [n]): with new in place of old
string.rstrip([c]): without characters of c, or white space, at the end
string.split(sep, [n]): the parts between sep
string.startswith(p): whether it begins with p, or with one of a tuple
string.strip([c]): without characters of c, or white space, at both ends
string.upper(): with ASCII letters in upper case
+string.capitalize(): with the letter at the front in upper case, the others in lower case
+string.codepoint_ords(): a new list of the numbers of the characters
+string.codepoints(): a new list of the characters
+string.count(t, [a, [b]]): how often t is in it
+string.elem_ords(): a new list of the numbers of the bytes
+string.elems(): a new list of the bytes, as strings
+string.index(t, [a, [b]]): the least index of t
+string.isalnum(): whether all bytes are letters or digits
+string.isalpha(): whether all bytes are letters
+string.isdigit(): whether all bytes are digits
+string.islower(): whether no letter is in upper case
+string.isspace(): whether all bytes are white space
+string.istitle(): whether it is as title makes it
+string.isupper(): whether no letter is in lower case
+string.partition(sep): what is before the first sep, sep, and what is after
+string.removeprefix(p): without p at the front
+string.removesuffix(p): without p at the end
+string.rfind(t, [a, [b]]): the greatest index of t, else -1
+string.rindex(t, [a, [b]]): the greatest index of t
+string.rpartition(sep): what is before the last sep, sep, and what is after
+string.rsplit([sep, [n]]): the parts between sep, cut from the right
+string.splitlines([keep]): the lines
+string.title(): with the first letter of each word in upper case
+set.add(x): puts x in
+set.clear(): takes all elements out
+set.difference(*it): the elements that none of the others has
+set.difference_update(*it): takes out what one of the others has
+set.discard(x): takes x out, if it is there
+set.intersection(*it): the elements that all others have
+set.intersection_update(*it): keeps what all others have
+set.isdisjoint(x): whether no element is in x
+set.issubset(x): whether all elements are in x
+set.issuperset(x): whether all of x are in the set
+set.pop(): takes the first element out
+set.remove(x): takes x out
+set.symmetric_difference(x): what is in one of both
+set.symmetric_difference_update(x): keeps what is in one of both
+set.union(*it): the elements of all
+set.update(*it): puts the elements of the others in";

/// A built-in function or a method.
#[derive(Clone, Copy)]
pub(crate) struct BuiltIn {
    /// The type of a method, or `json`: empty for a built-in function.
    pub owner: &'static str,
    pub name: &'static str,
    /// Its name with its arguments.
    pub call: &'static str,
    /// What it does.
    pub does: &'static str,
}

/// The function or method of a line: `None` if the dialect has it not.
pub(crate) fn built_in_of(line: &'static str, dialect: Dialect) -> Option<BuiltIn> {
    let line = match line.strip_prefix('+') {
        Some(_) if dialect == Dialect::Core => return None,
        Some(line) => line,
        None => line,
    };
    let (call, does) = line.split_once("): ")?;
    let (path, _) = call.split_once('(')?;
    let (owner, name) = path.split_once('.').unwrap_or(("", path));
    let call = line.get(path.len().saturating_sub(name.len())..call.len().saturating_add(1))?;
    Some(BuiltIn {
        owner,
        name,
        call,
        does,
    })
}

/// The lines of all built-in functions and methods.
pub(crate) fn lines() -> Lines<'static> {
    LINES.lines()
}

/// The names that are built into a dialect.
pub(crate) fn built_in_names(
    alloc: Global,
    dialect: Dialect,
) -> Result<Vec<&'static str>, AllocError> {
    let mut names = Vec::new(alloc);
    names.extend_from_slice(&["None", "True", "False"])?;
    if dialect == Dialect::Extended {
        names.push("json")?;
    }
    for line in lines() {
        match built_in_of(line, dialect) {
            Some(it) if it.owner == "" => names.push(it.name)?,
            _ => {}
        }
    }
    Ok(names)
}

/// What is said of a built-in function.
pub(crate) fn function_named(name: &str, dialect: Dialect) -> Option<BuiltIn> {
    for line in lines() {
        match built_in_of(line, dialect) {
            Some(it) if it.owner == "" && it.name == name => return Some(it),
            _ => {}
        }
    }
    None
}
