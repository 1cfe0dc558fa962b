//! `*` and `?` in the name of a pattern.

ghost use Rattle.std.specs.Prelude.{◌≡◌, ◌≤◌, ◌↔◌, ◌++◌, ℕ, List, false, length, true};
ghost use Rattle.star_words.specs.Glob.{Matches, MatchesNoEnd};

/// How a pattern fares with a text.
#[derive(Clone, Copy, Debug, PartialEq, Eq)]
enum Fit {
    /// It matches the text.
    Whole,
    /// It does not match the text.
    Not,
    /// It matches neither the text nor any end of it.
    Never,
}

/// How the empty pattern fares with a name.
fn fit_of_nothing(name: &[u8]) -> Fit
    ensures whole { result ≡ Fit.Whole → length name.now ≡ 0 }
    ensures not { result ≡ Fit.Not → length name.now ≡ 0 → ⊥ }
    ensures never { result ≡ Fit.Never → ⊥ }
{
    if name.len() == 0 {
        Fit::Whole
    } else {
        Fit::Not
    }
}

/// A pattern with one `*` in place of several at its front.
fn with_one_star(pattern: &[u8]) -> &[u8]
    ensures same { (name : List ℕ) → Matches result.now name ↔ Matches pattern.now name }
    ensures len { length result.now ≤ length pattern.now }
{
    let mut rest = pattern;
    while rest.starts_with(b"**") {
        rest = &rest[1..];
    }
    rest
}

/// How a pattern fares with a name. After a `*` the rest is tried at one end of the name after the other, until it
/// matches one or none: so a later `*` is never tried again for an earlier one, and the time is at most the product of
/// the lengths.
fn tried(pattern: &[u8], name: &[u8]) -> Fit
    ensures whole { result ≡ Fit.Whole → Matches pattern.now name.now }
    ensures not { result ≡ Fit.Not → Matches pattern.now name.now → ⊥ }
    ensures never { result ≡ Fit.Never → MatchesNoEnd pattern.now name.now }
{
    let pattern = with_one_star(pattern);
    let Some((first, more)) = pattern.split_first() else {
        return fit_of_nothing(name);
    };
    if *first == b'*' {
        match tried(more, name) {
            Fit::Not => {}
            here => return here,
        }
        return match name.split_first() {
            Some((_, rest)) => tried(pattern, rest),
            None => Fit::Never,
        };
    }
    let Some((byte, rest)) = name.split_first() else {
        return Fit::Never;
    };
    if *first == b'?' {
        return tried(more, rest);
    }
    if *first != *byte {
        return Fit::Not;
    }
    tried(more, rest)
}

/// Whether a pattern matches a name: `*` matches any bytes or none, `?` one byte, and any other byte itself.
pub fn matches(pattern: &[u8], name: &[u8]) -> bool
    ensures yes { result ≡ true → Matches pattern.now name.now }
    ensures no { result ≡ false → Matches pattern.now name.now → ⊥ }
{
    match tried(pattern, name) {
        Fit::Whole => true,
        Fit::Not => false,
        Fit::Never => false,
    }
}
