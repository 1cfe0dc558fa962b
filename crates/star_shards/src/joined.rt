//! The join of the reports of lines, and its text.

ghost use Rattle.std.specs.Prelude.{◌≡◌, ◌++◌, ◌∷◌, ◌||◌, [], ℕ, List, None, true, false, IfErr, IfOk, IfSome, OnOk, if◌then◌else◌, map, not, string_bytes};
ghost use Rattle.std.specs.BTreeMap.{IsOrdered};
ghost use Rattle.std.specs.List.{All, list_all};
ghost use Rattle.std.specs.Map.{values_of};
ghost use Rattle.star_shards.specs.Entries as spec;
ghost use Rattle.star_shards.specs.Entries.{label_of};
ghost use Rattle.star_shards.specs.Joined.{IsDifference, IsJoin, IsJoinedText, IsRefused, is_among, shown as shown_texts};
ghost use Rattle.star_shards.specs.Read.{IsRead, by_bytes, has, texts};
ghost use Rattle.star_shards.specs.Written.{AreRead, report_of, text_with};

use crate::entry::Entry;
use crate::line::front_of;
use crate::lines::{Lines, read_lines};
use crate::refusal::Refusal;
use std::alloc::{AllocError, Global};
use std::collections::BTreeMap;

/// The join of reports: how many files were begun, and the entries in the order of their labels.
#[derive(Drop)]
pub struct Joined<'a> {
    begun: usize,
    entries: Vec<Entry<'a>>,
}

/// The entries that a map has for their labels, in the order of the labels.
fn in_order<'a>(
    alloc: Global,
    known: BTreeMap<&'a [u8], Entry<'a>>,
) -> Result<Vec<Entry<'a>>, AllocError>
    ensures order { IfOk result (λ v. IsOrdered by_bytes known.entry) }
    ensures items { IfOk result (λ v. v.items ≡ values_of known.entry.entries) }
{
    let mut joined = Vec::with_capacity(alloc, known.len())?;
    for (_, entry) in known {
        joined.push(entry)?;
    }
    Ok(joined)
}

/// Each of the entries once, in the order of their labels. `Differ` if two with one label differ.
fn gathered<'a>(alloc: Global, entries: &[Entry<'a>]) -> Result<Vec<Entry<'a>>, Refusal<'a>>
    requires { All IsRead entries.now }
    ensures join { IfOk result (λ v. IsJoin (texts entries.now) (texts v.items)) }
    ensures read { IfOk result (λ v. All IsRead v.items) }
    ensures differ { IfErr result (IsDifference (texts entries.now)) }
{
    let mut known = BTreeMap::new(alloc);
    for entry in entries {
        if let Some(other) = known.insert(entry.label, *entry)? {
            if other.text != entry.text {
                return Err(Refusal::Differ(entry.label));
            }
        }
    }
    Ok(in_order(alloc, known)?)
}

/// Joins the reports that are the lines of a text.
pub fn join(alloc: Global, input: &[u8]) -> Result<Joined<'_>, Refusal<'_>>
    ensures ok { IfOk result (λ j. IsJoinedText input.now (report_of j)) }
    ensures read { IfOk result AreRead }
    ensures err { IfErr result (IsRefused input.now) }
{
    let Lines {
        entries,
        are_runs,
        are_checks,
    } = read_lines(alloc, input)?;
    if !are_runs && !are_checks {
        return Err(Refusal::Mixed);
    }
    let entries = gathered(alloc, entries.as_slice())?;
    let row = entries.as_slice();
    let begun = if are_runs { row.len() } else { 0 };
    Ok(Joined { begun, entries })
}

/// What comes after the entries.
const END: &[u8] = b"]}\n";

/// The words, to look labels up among them.
fn set_of(alloc: Global, words: &[String]) -> Result<BTreeMap<&[u8], ()>, AllocError>
    ensures { IfOk result (λ m. (q : List ℕ) → has m q ≡ is_among (map string_bytes words.now) q) }
{
    let mut set = BTreeMap::new(alloc);
    for word in words {
        set.insert(word.as_bytes(), ())?;
    }
    Ok(set)
}

/// The labels of entries, to look words up among them.
fn labels_of<'a>(alloc: Global, entries: &[Entry<'a>]) -> Result<BTreeMap<&'a [u8], ()>, AllocError>
    ensures { IfOk result (λ m. (q : List ℕ) → has m q ≡ is_among (map (λ e. e.label.now) entries.now) q) }
{
    let mut labels = BTreeMap::new(alloc);
    for entry in entries {
        labels.insert(entry.label, ())?;
    }
    Ok(labels)
}

/// The first of the words that is not among these.
fn first_lacking<'b>(known: &BTreeMap<&'b [u8], ()>, words: &'b [String]) -> Option<&'b str>
    ensures none { result ≡ None → All (λ w. has known.now (string_bytes w) ≡ true) words.now }
    ensures some { IfSome result (λ w. has known.now w.now ≡ false) }
{
    for word in words {
        if !known.contains_key(&word.as_bytes()) {
            return Some(word.as_str());
        }
    }
    None
}

/// Whether an entry is shown if the roots alone are wanted of what is good.
fn is_shown<'a>(entry: &Entry<'a>, roots: &BTreeMap<&'a [u8], ()>) -> bool
    ensures { result ≡ (not entry.now.is_good || has roots.now entry.now.label.now) }
{
    !entry.is_good || roots.contains_key(&entry.label)
}

/// Those of the entries that are shown.
fn shown<'a>(
    alloc: Global,
    entries: &[Entry<'a>],
    roots: &'a [String],
) -> Result<Vec<Entry<'a>>, AllocError>
    ensures { IfOk result (λ v. All IsRead entries.now
        → texts v.items ≡ shown_texts (map string_bytes roots.now) (texts entries.now)) }
{
    let set = set_of(alloc, roots)?;
    let mut shown = Vec::new(alloc);
    for entry in entries {
        if is_shown(entry, &set) {
            shown.push(*entry)?;
        }
    }
    Ok(shown)
}

/// Adds one more entry, after a comma unless it is the first.
fn push_entry(text: &mut Vec<u8>, later: bool, entry: &[u8]) -> Result<(), AllocError>
    ensures { OnOk result (text.new.items ≡ text.old.items ++ ((if later then 44 ∷ [] else []) ++ entry.now)) }
{
    if later {
        text.push(b',')?;
    }
    text.extend_from_slice(entry)
}

/// The number of bytes of entries, with a comma for each.
fn room_of(entries: &[Entry<'_>]) -> usize {
    let mut room: usize = END.len();
    for entry in entries {
        room = room.saturating_add(entry.text.len()).saturating_add(1);
    }
    room
}

/// The text of a report with these entries, with a line end.
fn text_of(alloc: Global, begun: usize, entries: &[Entry<'_>]) -> Result<Vec<u8>, AllocError>
    ensures { IfOk result (λ t. t.items ≡ text_with begun (texts entries.now)) }
{
    let mut text = front_of(alloc, begun)?;
    text.reserve(room_of(entries))?;
    for (i, entry) in entries.iter().enumerate() {
        push_entry(&mut text, i > 0, entry.text)?;
    }
    text.extend_from_slice(END)?;
    Ok(text)
}

/// Whether nothing is at fault.
fn all_good(entries: &[Entry<'_>]) -> bool
    ensures { result ≡ list_all (λ e. e.is_good) entries.now }
{
    entries.iter().all(|entry| entry.is_good)
}

impl<'a> Joined<'a> {
    /// Whether nothing is at fault.
    pub fn is_good(&self) -> bool
        ensures { AreRead self.now → result ≡ list_all spec.is_good (report_of self.now).entries }
    {
        all_good(self.entries.as_slice())
    }

    /// The text of the report, with a line end.
    pub fn text(&self, alloc: Global) -> Result<Vec<u8>, AllocError>
        ensures { IfOk result (λ t. t.items ≡ text_with self.now.begun (report_of self.now).entries) }
    {
        text_of(alloc, self.begun, self.entries.as_slice())
    }

    /// The text of the report without what is good and none of the roots, with a line end.
    pub fn text_of_roots(&self, alloc: Global, roots: &'a [String]) -> Result<Vec<u8>, AllocError>
        ensures { IfOk result (λ t. AreRead self.now → t.items ≡ text_with self.now.begun
            (shown_texts (map string_bytes roots.now) (report_of self.now).entries)) }
    {
        let entries = shown(alloc, self.entries.as_slice(), roots)?;
        text_of(alloc, self.begun, entries.as_slice())
    }

    /// The first of the roots that is the label of no entry.
    pub fn lacking(&self, alloc: Global, roots: &'a [String]) -> Result<Option<&'a str>, AllocError>
        ensures none { IfOk result (λ o. AreRead self.now → o ≡ None
            → All (λ w. is_among (map label_of (report_of self.now).entries) (string_bytes w) ≡ true) roots.now) }
        ensures some { IfOk result (λ o. AreRead self.now
            → IfSome o (λ w. is_among (map label_of (report_of self.now).entries) w.now ≡ false)) }
    {
        let labels = labels_of(alloc, self.entries.as_slice())?;
        Ok(first_lacking(&labels, roots))
    }
}
