//! The request of C, and the answer.

ghost use Rattle.std.specs.Prelude.{◌≡◌, All, IfOk, IfSome, false, map, option_map, string_bytes, true};
ghost use Rattle.std.specs.Str.{IsUtf8};
ghost use Rattle.starload_c.specs.Calls as spec;

use star_bundle::error::ServeError;
use star_dialect::Mode;
use star_report::wanted::Wanted;
use std::alloc::{AllocError, Global};

/// The request. Each slice is a pointer, which is never null, and a length.
#[repr(C)]
#[derive(Clone, Copy)]
pub struct Asked<'a> {
    /// The bytes of a bundle: a JSON object from labels to texts.
    pub bundle: &'a [u8],
    /// The labels of the roots.
    pub roots: &'a [&'a [u8]],
    /// The label of the prelude, if there is one.
    pub prelude: &'a [u8],
    /// How many steps a file may take, from 1 to 100,000,000.
    pub steps: u32,
    /// Whether there is a prelude.
    pub has_prelude: bool,
    /// Whether the values of globals are wanted as JSON.
    pub with_values: bool,
    /// Whether the loads of each module are wanted.
    pub with_loads: bool,
    /// Whether the steps are wanted that each module has paid.
    pub with_steps: bool,
    /// Whether of the modules that are ok the roots alone are wanted.
    pub only_roots: bool,
}

/// The answer of a call.
#[repr(C)]
#[derive(Clone, Copy)]
pub struct Answer {
    /// 0: a report, in which every file is ok; 1: a report, in which some file is not; 2: no report; 3: a report that
    /// `out` has no room for. With 2 and 3 `out` is as it was.
    pub status: u32,
    /// Why there is no report, by the numbers of `starload.h`. 0 if there is one.
    pub refusal: u32,
    /// How many bytes the report has. 0 if there is no report.
    pub length: usize,
}

/// The number of a refusal.
pub fn refusal_of(error: ServeError) -> u32
    ensures { result ≡ spec.refusal_of error }
{
    match error {
        ServeError::Read => 1,
        ServeError::TooBig => 2,
        ServeError::BadBundle => 3,
        ServeError::BadKey => 4,
        ServeError::TooMany => 5,
        ServeError::TooLong => 6,
        ServeError::BadRoot => 7,
        ServeError::NoRoot => 8,
        ServeError::BadPrelude => 9,
        ServeError::NoPrelude => 10,
        ServeError::Memory => 11,
        ServeError::Write => 12,
        ServeError::Unpublished => 13,
        ServeError::BadDir => 14,
        ServeError::BadFile => 15,
        ServeError::NotText => 16,
        ServeError::BadRecord => 19,
    }
}

/// Whether a word is a text.
fn is_text(word: &[u8]) -> bool
    ensures yes { result ≡ true → IsUtf8 word.now }
    ensures no { result ≡ false → IsUtf8 word.now → ⊥ }
{
    std::str::from_utf8(word).is_ok()
}

/// Whether each of these words is a text.
fn are_texts(words: &[&[u8]]) -> bool
    ensures yes { result ≡ true → All (λ w. IsUtf8 w.now) words.now }
    ensures no { result ≡ false → All (λ w. IsUtf8 w.now) words.now → ⊥ }
{
    for word in words {
        if !is_text(*word) {
            return false;
        }
    }
    true
}

/// A word as a text.
fn text_of(alloc: Global, word: &[u8]) -> Result<String, AllocError>
    requires { IsUtf8 word.now }
    ensures { IfOk result (λ s. string_bytes s ≡ word.now) }
{
    match std::str::from_utf8(word) {
        Ok(text) => String::from_str(alloc, text),
        Err(_) => unreachable!(),
    }
}

/// Words as texts.
fn texts_of(alloc: Global, words: &[&[u8]]) -> Result<Vec<String>, AllocError>
    requires { All (λ w. IsUtf8 w.now) words.now }
    ensures { IfOk result (λ ts. map string_bytes ts.items ≡ map (λ w. w.now) words.now) }
{
    let mut texts = Vec::new(alloc);
    for word in words {
        texts.push(text_of(alloc, *word)?)?;
    }
    Ok(texts)
}

impl<'a> Asked<'a> {
    /// The further members of each module that are wanted.
    pub(crate) fn wanted(&self) -> Wanted
        ensures { result ≡ spec.wanted_of self.now }
    {
        Wanted {
            values: self.with_values,
            loads: self.with_loads,
            steps: self.with_steps,
            calls: false,
            only_roots: self.only_roots,
        }
    }

    /// The mode in which files run: the core language, with these steps.
    pub(crate) fn mode(&self, alloc: Global) -> Mode
        ensures { result ≡ spec.mode_of self.now }
    {
        Mode::core(alloc, self.steps)
    }

    /// Whether the steps are from 1 to 100,000,000.
    pub(crate) fn steps_fit(&self) -> bool
        ensures yes { result ≡ true → spec.StepsFit self.now }
        ensures no { result ≡ false → spec.StepsFit self.now → ⊥ }
    {
        1 <= self.steps && self.steps <= 100_000_000
    }

    /// Whether the prelude's label is a text, if there is a prelude.
    fn prelude_fits(&self) -> bool
        ensures yes { result ≡ true → IfSome (spec.prelude_of self.now) IsUtf8 }
        ensures no { result ≡ false → IfSome (spec.prelude_of self.now) IsUtf8 → ⊥ }
    {
        !self.has_prelude || is_text(self.prelude)
    }

    /// Whether there is a root, and each word is a text.
    pub(crate) fn words_fit(&self) -> bool
        ensures yes { result ≡ true → spec.WordsFit self.now }
        ensures no { result ≡ false → spec.WordsFit self.now → ⊥ }
    {
        !self.roots.is_empty() && are_texts(self.roots) && self.prelude_fits()
    }

    /// The labels of the roots as texts.
    pub(crate) fn root_texts(&self, alloc: Global) -> Result<Vec<String>, AllocError>
        requires { All (λ w. IsUtf8 w.now) self.now.roots.now }
        ensures { IfOk result (λ ts. map string_bytes ts.items ≡ spec.words_of self.now) }
    {
        texts_of(alloc, self.roots)
    }

    /// The label of the prelude as a text, if there is a prelude.
    pub(crate) fn prelude_text(&self, alloc: Global) -> Result<Option<String>, AllocError>
        requires { IfSome (spec.prelude_of self.now) IsUtf8 }
        ensures { IfOk result (λ p. option_map string_bytes p ≡ spec.prelude_of self.now) }
    {
        if self.has_prelude {
            Ok(Some(text_of(alloc, self.prelude)?))
        } else {
            Ok(None)
        }
    }
}
