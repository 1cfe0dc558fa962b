//! Drafts: texts that are not built yet.
//!
//! The text of a value may be far longer than what its run has paid, since a list may hold one long string at many
//! places. A draft has short pieces as they are, and of a long string, once there is no room for it, only that it comes
//! there: the string itself is shared. So it takes memory by the pieces that are put, and not by their bytes. A text is
//! built only if it is no longer than what can be paid for it.

ghost use Rattle.std.specs.Prelude.{◌≡◌, ◌≤◌, ◌<◌, ◌++◌, [], IfOk, IfSome, MatchOption, OnOk, length, string_bytes, take};
ghost use Rattle.std.specs.Bool.{OnFalse, OnTrue};
ghost use Rattle.std.specs.List.{flat_map};
ghost use Rattle.json.specs.Print as json;
ghost use Rattle.star_store.specs.Json.{begun};
ghost use Rattle.star_store.specs.Text.{quoted};
ghost use Rattle.star_visit.specs.Drafts.{head_bytes, part_bytes};

use crate::line::{line_length, put_line};
use crate::quoted::{put_json, put_quoted};
use star_text::Text;
use std::alloc::{AllocError, Global};
use std::marker::Model;
use std::mem;

/// Strings up to this length are copied into a draft, whatever room it has.
const SHORT: usize = 32;

/// A part of a draft.
#[derive(Drop)]
pub(crate) enum Part {
    /// Short pieces, one after the other.
    Built(String),
    /// A string.
    Shared(Text),
    /// A string in quotes.
    Quoted(Text),
    /// A string as JSON.
    Json(Text),
    /// A line end and the beginning of a line: the prefix, and the indent this many times.
    Line(Text, Text, u32),
}

/// A text that is not built yet. Contracts see it as its list of bytes.
#[derive(Drop)]
pub struct Draft {
    alloc: Global,
    /// What comes before the parts.
    head: Option<Text>,
    parts: Vec<Part>,
    /// What comes after the parts.
    tail: String,
    /// How many bytes of long strings may still be copied.
    room: usize,
}

impl Model for Draft {
    ghost use Rattle.std.specs.Prelude.{List, ℕ, ◌++◌, string_bytes};
    ghost use Rattle.std.specs.List.{flat_map};
    ghost use Rattle.star_visit.specs.Drafts.{head_bytes, part_bytes};

    ghost Value = { List ℕ };

    ghost view = { λ d. head_bytes d.head ++ flat_map part_bytes d.parts.items ++ string_bytes d.tail };
}

/// Puts a part after a text.
fn put_part(alloc: Global, out: &mut String, part: &Part) -> Result<(), AllocError>
    ensures { OnOk result (string_bytes out.new ≡ string_bytes out.old ++ part_bytes part.now) }
{
    match part {
        Part::Built(text) => out.push_str(text.as_str()),
        Part::Shared(text) => out.push_str(text.as_str()),
        Part::Quoted(text) => put_quoted(out, text.as_str()),
        Part::Json(text) => put_json(alloc, out, text.as_str()),
        Part::Line(prefix, indent, depth) => put_line(
            out,
            prefix.as_str(),
            indent.as_str(),
            *depth,
        ),
    }
}

/// Whether a part may be no longer than `room`. A line, which may be long though it takes one step, is measured before
/// it is built.
fn may_fit(part: &Part, room: usize) -> bool
    ensures { OnFalse result (room < length (part_bytes part.now)) }
{
    match part {
        Part::Line(prefix, indent, depth) => {
            line_length(prefix.as_str(), indent.as_str(), *depth) <= room as u128
        }
        _ => true,
    }
}

/// Puts parts after a text, until it is longer than `room`: whether it is not.
fn put_parts(
    alloc: Global,
    out: &mut String,
    parts: &[Part],
    room: usize,
) -> Result<bool, AllocError>
    requires { length (string_bytes out.old) ≤ room }
    ensures whole { IfOk result (λ all. OnTrue all (string_bytes out.new
        ≡ string_bytes out.old ++ flat_map part_bytes parts.now)) }
    ensures within { IfOk result (λ all. OnTrue all (length (string_bytes out.new) ≤ room)) }
    ensures longer { IfOk result (λ all. OnFalse all (room
        < length (string_bytes out.old ++ flat_map part_bytes parts.now))) }
    ensures start { OnOk result (take (length (string_bytes out.new))
        (string_bytes out.old ++ flat_map part_bytes parts.now) ≡ string_bytes out.new) }
{
    for part in parts {
        if !may_fit(part, room - out.len()) {
            return Ok(false);
        }
        put_part(alloc, out, part)?;
        if out.len() > room {
            return Ok(false);
        }
    }
    Ok(true)
}

/// The string at the head of a draft, or nothing.
fn head_text(head: &Option<Text>) -> &str
    ensures { result.now ≡ head_bytes head.now }
{
    match head {
        Some(text) => text.as_str(),
        None => "",
    }
}

/// The text of a head, parts and a tail, if it is no longer than `room`.
fn built(
    alloc: Global,
    head: &str,
    parts: &[Part],
    tail: &str,
    room: usize,
) -> Result<Option<Text>, AllocError>
    ensures text { IfOk result (λ made. MatchOption made
        (room < length (head.now ++ flat_map part_bytes parts.now ++ tail.now))
        (λ t. t ≡ head.now ++ flat_map part_bytes parts.now ++ tail.now)) }
    ensures within { IfOk result (λ made. IfSome made (λ t. length t ≤ room)) }
{
    if head.len() > room {
        return Ok(None);
    }
    let mut out = String::from_str(alloc, head)?;
    if !put_parts(alloc, &mut out, parts, room)? {
        return Ok(None);
    }
    if tail.len() > room - out.len() {
        return Ok(None);
    }
    out.push_str(tail)?;
    Ok(Some(Text::of(out)?))
}

impl Draft {
    /// An empty draft, in which at most about `room` bytes of long strings are copied.
    pub fn new(alloc: Global, room: usize) -> Draft
        ensures { result ≡ [] }
    {
        Draft {
            alloc,
            head: None,
            parts: Vec::new(alloc),
            tail: String::new(alloc),
            room,
        }
    }

    /// The draft of a string, which is not copied.
    pub fn of(alloc: Global, text: Text, room: usize) -> Draft
        ensures { result ≡ text }
    {
        Draft {
            alloc,
            head: Some(text),
            parts: Vec::new(alloc),
            tail: String::new(alloc),
            room,
        }
    }

    /// How many bytes of long strings may still be copied.
    pub fn room(&self) -> usize {
        self.room
    }

    /// Puts a piece after the draft, as it is.
    pub fn say(&mut self, more: &str) -> Result<(), AllocError>
        ensures { OnOk result (self.new ≡ self.old ++ more.now) }
    {
        self.room = self.room.saturating_sub(more.len());
        self.push(more)
    }

    /// Puts bytes after the draft that count as copied already.
    fn push(&mut self, more: &str) -> Result<(), AllocError>
        ensures { OnOk result (self.new ≡ self.old ++ more.now) }
    {
        self.tail.push_str(more)
    }

    /// Puts a part after the draft.
    fn share(&mut self, part: Part) -> Result<(), AllocError>
        ensures { OnOk result (self.new ≡ self.old ++ part_bytes part) }
    {
        let before = mem::replace(&mut self.tail, String::new(self.alloc));
        if !before.is_empty() {
            self.parts.push(Part::Built(before))?;
        }
        self.parts.push(part)?;
        Ok(())
    }

    /// Puts a string after the draft.
    pub fn put(&mut self, text: &Text) -> Result<(), AllocError>
        ensures { OnOk result (self.new ≡ self.old ++ text.now) }
    {
        if text.as_str().len() <= SHORT || text.as_str().len() <= self.room {
            return self.say(text.as_str());
        }
        self.share(Part::Shared(text.share()?))
    }

    /// Puts a string in quotes after the draft.
    pub fn put_quoted(&mut self, text: &Text) -> Result<(), AllocError>
        ensures { OnOk result (self.new ≡ self.old ++ quoted text.now) }
    {
        if text.as_str().len() <= SHORT || text.as_str().len() <= self.room {
            self.room = self.room.saturating_sub(text.as_str().len());
            return put_quoted(&mut self.tail, text.as_str());
        }
        self.share(Part::Quoted(text.share()?))
    }

    /// Puts a string as JSON after the draft.
    pub fn put_json(&mut self, text: &Text) -> Result<(), AllocError>
        ensures { OnOk result (self.new ≡ self.old ++ json.quoted text.now) }
    {
        if text.as_str().len() <= SHORT || text.as_str().len() <= self.room {
            self.room = self.room.saturating_sub(text.as_str().len());
            return put_json(self.alloc, &mut self.tail, text.as_str());
        }
        self.share(Part::Json(text.share()?))
    }

    /// Puts a line end and the beginning of a line after the draft: the prefix, and the indent this many times.
    pub fn put_line(&mut self, prefix: &Text, indent: &Text, depth: u32) -> Result<(), AllocError>
        ensures { OnOk result (self.new ≡ self.old ++ begun prefix.now indent.now depth) }
    {
        let length = line_length(prefix.as_str(), indent.as_str(), depth);
        if length <= self.room as u128 {
            self.room = self.room.saturating_sub(length as usize);
            return put_line(&mut self.tail, prefix.as_str(), indent.as_str(), depth);
        }
        self.share(Part::Line(prefix.share()?, indent.share()?, depth))
    }

    /// No more than `room` bytes of long strings are copied from then on.
    fn keep_room(&mut self, room: usize)
        ensures { self.new ≡ self.old }
    {
        if room < self.room {
            self.room = room;
        }
    }

    /// Puts the head of another draft after this one.
    fn put_head(&mut self, head: Option<Text>) -> Result<(), AllocError>
        ensures { OnOk result (self.new ≡ self.old ++ head_bytes head) }
    {
        match head {
            Some(text) => self.put(&text),
            None => Ok(()),
        }
    }

    /// Puts the parts of another draft after this one.
    fn put_all(&mut self, parts: Vec<Part>) -> Result<(), AllocError>
        ensures { OnOk result (self.new ≡ self.old ++ flat_map part_bytes parts.items) }
    {
        for part in parts {
            self.share(part)?;
        }
        Ok(())
    }

    /// Puts another draft after this one. No more may be copied then than the other one leaves.
    pub fn put_draft(&mut self, more: Draft) -> Result<(), AllocError>
        ensures { OnOk result (self.new ≡ self.old ++ more) }
    {
        let Draft {
            alloc: _,
            head,
            parts,
            tail,
            room,
        } = more;
        self.keep_room(room);
        self.put_head(head)?;
        self.put_all(parts)?;
        self.push(tail.as_str())
    }

    /// The start of the text: all of it if it is no longer than `room`, else hardly more than `room` bytes and one
    /// string.
    pub fn start(&self, room: usize) -> Result<String, AllocError>
        ensures start { IfOk result (λ t. take (length (string_bytes t)) self.now ≡ string_bytes t) }
        ensures enough { IfOk result (λ t. length self.now ≤ room → string_bytes t ≡ self.now) }
    {
        let head = head_text(&self.head);
        let mut out = String::from_str(self.alloc, head)?;
        if head.len() > room {
            return Ok(out);
        }
        if put_parts(self.alloc, &mut out, &self.parts, room)? {
            out.push_str(self.tail.as_str())?;
        }
        Ok(out)
    }

    /// The text, if it is no longer than `room`: of a longer one hardly more than `room` is ever built.
    pub fn text_within(self, room: usize) -> Result<Option<Text>, AllocError>
        ensures text { IfOk result (λ made. MatchOption made (room < length self) (λ t. t ≡ self)) }
        ensures within { IfOk result (λ made. IfSome made (λ t. length t ≤ room)) }
    {
        let Draft {
            alloc,
            head,
            parts,
            tail,
            room: _,
        } = self;
        if !parts.is_empty() {
            return built(alloc, head_text(&head), &parts, tail.as_str(), room);
        }
        match head {
            Some(text) if tail.is_empty() => {
                if text.as_str().len() > room {
                    return Ok(None);
                }
                Ok(Some(text))
            }
            Some(text) => built(alloc, text.as_str(), &parts, tail.as_str(), room),
            None => {
                if tail.len() > room {
                    return Ok(None);
                }
                Ok(Some(Text::of(tail)?))
            }
        }
    }
}
