//! What is left out of the files below a folder: the entries that patterns cover (`docs/USING.md`).

ghost use Rattle.std.specs.Prelude.{◌≡◌, ◌∷◌, IfOk, ℕ, List, false, map, string_bytes, true};
ghost use Rattle.star_label.specs.Label.{with_folder};
ghost use Rattle.star_words.specs.Excluded.{Covers, CoversCut, IsLeftOut, LeavesOut, OneLeavesOut, is_pattern, patterns_of};
ghost use Rattle.star_words.specs.Named.{texts_of};

use crate::glob::matches;
use star_folder::folder::Kind;
use star_folder::path::inside;
use std::alloc::{AllocError, Global};

/// Whether a line without the blanks around it is a pattern: it is not empty and does not begin with `#`.
fn is_pattern(line: &str) -> bool
    ensures { result ≡ is_pattern line.now }
{
    line != "" && !line.starts_with('#')
}

/// The patterns in a file that says what is left out: one a line, without the blanks around it, but for lines that are
/// empty then, or begin with `#`.
pub fn patterns_in(alloc: Global, text: &str) -> Result<Vec<String>, AllocError>
    ensures { IfOk result (λ v. map string_bytes v.items ≡ patterns_of text.now) }
{
    let lines = text.lines().collect::<Vec<&str>>(alloc)?;
    let mut patterns = Vec::new(alloc);
    for line in lines.as_slice() {
        let line = line.trim();
        if is_pattern(line) {
            patterns.push(String::from_str(alloc, line)?)?;
        }
    }
    Ok(patterns)
}

/// Whether a pattern covers an entry: by its name, or, if the pattern has a slash, by its path below the top, with or
/// without a slash before it. `rooted` is the path with that slash.
fn covers(pattern: &[u8], rooted: &[u8], name: &[u8]) -> bool
    ensures yes { result ≡ true → (path : List ℕ) → rooted.now ≡ 47 ∷ path → Covers path name.now pattern.now }
    ensures no { result ≡ false → (path : List ℕ) → rooted.now ≡ 47 ∷ path → Covers path name.now pattern.now → ⊥ }
{
    if !pattern.contains(&b'/') {
        return matches(pattern, name);
    }
    if matches(pattern, rooted) {
        return true;
    }
    match rooted.split_first() {
        Some((_, path)) => matches(pattern, path),
        None => false,
    }
}

/// Whether a pattern ends in a slash, and covers an entry without it.
fn covers_cut(pattern: &[u8], rooted: &[u8], name: &[u8]) -> bool
    ensures yes { result ≡ true → (path : List ℕ) → rooted.now ≡ 47 ∷ path → CoversCut path name.now pattern.now }
    ensures no { result ≡ false → (path : List ℕ) → rooted.now ≡ 47 ∷ path
        → CoversCut path name.now pattern.now → ⊥ }
{
    let Some((last, front)) = pattern.split_last() else {
        return false;
    };
    if *last != b'/' {
        return false;
    }
    covers(front, rooted, name)
}

/// Whether a pattern leaves an entry out: it covers it, or the entry is a folder and the pattern covers it without a
/// slash at its end.
fn leaves_out(pattern: &[u8], kind: Kind, rooted: &[u8], name: &[u8]) -> bool
    ensures yes { result ≡ true → (path : List ℕ) → rooted.now ≡ 47 ∷ path
        → LeavesOut kind path name.now pattern.now }
    ensures no { result ≡ false → (path : List ℕ) → rooted.now ≡ 47 ∷ path
        → LeavesOut kind path name.now pattern.now → ⊥ }
{
    if covers(pattern, rooted, name) {
        return true;
    }
    match kind {
        Kind::File => false,
        Kind::Folder => covers_cut(pattern, rooted, name),
        Kind::Other => false,
    }
}

/// Whether one of these patterns leaves an entry out.
fn one_leaves_out(patterns: &[String], kind: Kind, rooted: &[u8], name: &[u8]) -> bool
    ensures yes { result ≡ true → (path : List ℕ) → rooted.now ≡ 47 ∷ path
        → OneLeavesOut (texts_of patterns.now) kind path name.now }
    ensures no { result ≡ false → (path : List ℕ) → rooted.now ≡ 47 ∷ path
        → OneLeavesOut (texts_of patterns.now) kind path name.now → ⊥ }
{
    for pattern in patterns {
        if leaves_out(pattern.as_str().as_bytes(), kind, rooted, name) {
            return true;
        }
    }
    false
}

/// Whether one of these patterns leaves out the entry of this name in the folder at a path.
pub fn is_left_out(
    alloc: Global,
    patterns: &[String],
    kind: Kind,
    folder: &str,
    name: &str,
) -> Result<bool, AllocError>
    ensures yes { IfOk result (λ is. is ≡ true → IsLeftOut (texts_of patterns.now) kind folder.now name.now) }
    ensures no { IfOk result (λ is. is ≡ false → IsLeftOut (texts_of patterns.now) kind folder.now name.now → ⊥) }
{
    if patterns.is_empty() {
        return Ok(false);
    }
    let path = inside(alloc, folder, name)?;
    let mut rooted = String::from_str(alloc, "/")?;
    rooted.push_str(path.as_str())?;
    let rooted = rooted.as_str().as_bytes();
    Ok(one_leaves_out(patterns, kind, rooted, name.as_bytes()))
}
