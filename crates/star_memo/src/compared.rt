//! Files before and after a change, and which of them have the same text before and after it.
//!
//! The texts are compared once, and the values that stay are found by the row that tells which are the same.

ghost use Rattle.std.specs.Prelude.{◌≡◌, ◌<◌, ◌≤◌, ℕ, true, IfOk, IfSome, Some, length};
ghost use Rattle.star_label.specs.Files.{IsOrdered, label_at, text_at};
ghost use Rattle.star_memo.specs.Compared.{AreSame};
ghost use Rattle.star_memo.specs.Outcomes.{HaveLabels};

use star_label::files::Files;
use std::alloc::{AllocError, Global};
use std::marker::Model;

/// Files before and after a change, and which of them have the same text before and after it.
#[derive(Drop)]
pub struct Compared<'a> {
    before: &'a Files,
    files: &'a Files,
    /// Whether a file has the text that it had before, by its number.
    same: &'a [bool],
}

impl<'a> Model for Compared<'a> {
    ghost use Rattle.star_memo.specs.Compared.{AreSame, ComparedView};

    ghost Value = { ComparedView };

    ghost view = { λ c. record { before = c.before.now; files = c.files.now } };

    ghost invariant = { λ c. AreSame c.before.now c.files.now c.same.now };
}

/// Whether two rows of files have the same labels.
fn have_labels(before: &Files, files: &Files) -> bool
    ensures labels { result ≡ true → HaveLabels before.now files.now }
    ensures ordered { result ≡ true → IsOrdered before.now }
    ensures same { HaveLabels before.now files.now → result ≡ true }
{
    if before.len() != files.len() {
        return false;
    }
    for n in 0..files.len() {
        if before.label(n).text() != files.label(n).text() {
            return false;
        }
    }
    true
}

/// Whether a file was there before, and has the text that it had.
fn has_text(before: &Files, files: &Files, n: usize) -> bool
    requires { n < length files.now }
    ensures text { result ≡ true → text_at before.now n ≡ text_at files.now n }
    ensures same { n < length before.now → text_at before.now n ≡ text_at files.now n → result ≡ true }
{
    n < before.len() && before.text(n) == files.text(n)
}

/// Whether each file has the text that it had before, by the numbers of the files. The error: an allocation failed.
pub fn same_texts(alloc: Global, before: &Files, files: &Files) -> Result<Vec<bool>, AllocError>
    ensures { IfOk result (λ same. AreSame before.now files.now same.items) }
{
    let mut same = Vec::with_capacity(alloc, files.len())?;
    for n in 0..files.len() {
        same.push(has_text(before, files, n))?;
    }
    Ok(same)
}

impl<'a> Compared<'a> {
    /// Files before and after a change, of which these have the same text.
    pub fn new(before: &'a Files, files: &'a Files, same: &'a [bool]) -> Compared<'a>
        requires { AreSame before.now files.now same.now }
        ensures { result ≡ record { before = before.now; files = files.now } }
    {
        Compared {
            before,
            files,
            same,
        }
    }

    /// How many files there are after the change.
    pub fn count(&self) -> usize
        ensures count { result ≡ length self.now.files }
        ensures few { result ≤ 10000 }
    {
        self.files.len()
    }

    /// Whether the files have the same labels before and after the change.
    pub(crate) fn has_same_labels(&self) -> bool
        ensures labels { result ≡ true → HaveLabels self.now.before self.now.files }
        ensures ordered { result ≡ true → IsOrdered self.now.before }
        ensures same { HaveLabels self.now.before self.now.files → result ≡ true }
    {
        have_labels(self.before, self.files)
    }

    /// Whether a file has the same text before and after the change.
    pub fn has_text(&self, n: usize) -> bool
        ensures text { result ≡ true → text_at self.now.before n ≡ text_at self.now.files n }
        ensures same { n < length self.now.before → n < length self.now.files
            → text_at self.now.before n ≡ text_at self.now.files n → result ≡ true }
    {
        n < self.same.len() && self.same[n]
    }

    /// Whether the file `n` has the text that the file `m` had before.
    pub(crate) fn has_text_of(&self, m: usize, n: usize) -> bool
        requires before { m < length self.now.before }
        requires after { n < length self.now.files }
        ensures text { result ≡ true → text_at self.now.before m ≡ text_at self.now.files n }
        ensures same { text_at self.now.before m ≡ text_at self.now.files n → result ≡ true }
    {
        if m == n {
            return self.has_text(n);
        }
        self.before.text(m) == self.files.text(n)
    }

    /// The number that the label of a file had before. Most labels keep theirs, and need no search.
    pub(crate) fn number_before(&self, n: usize) -> Option<usize>
        requires { n < length self.now.files }
        ensures found { IfSome result (λ m.
            (m < length self.now.before) × (label_at self.now.before m ≡ label_at self.now.files n)) }
        ensures each { (m : ℕ) → m < length self.now.before
            → label_at self.now.before m ≡ label_at self.now.files n → result ≡ Some m }
    {
        let label = self.files.label(n);
        if n < self.before.len() && self.before.label(n).text() == label.text() {
            return Some(n);
        }
        self.before.find(label)
    }
}
