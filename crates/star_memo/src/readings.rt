//! The results of reading the files that the last request reached, which are kept for the next one.
//!
//! They borrow from trees that lie in an arena, and live no longer than it. A result stays if the labels, the prelude,
//! its text, the language and the text of the file itself stay: the loads of a file are found by their labels alone.

ghost use Rattle.std.specs.Prelude.{◌≡◌, ◌≢◌, ◌<◌, ◌≤◌, [], ℕ, List, IfOk, IsSome, None, OnOk, Some, slice_get, slice_index_or, vec_len};
ghost use Rattle.std.specs.Arc.{arc_value};
ghost use Rattle.star_label.specs.Files.{File, text_at};
ghost use Rattle.star_memo.specs.Parses.{AreKept, Has, IsKept, IsParse};
ghost use Rattle.star_memo.specs.Outcomes.{HaveLabels};
ghost use Rattle.star_memo.specs.Readings.{AreReadings, HasPrelude, StayIn};
ghost use Rattle.star_reading.specs.Parsed.{AreParsesOf, IsParsed};

use crate::compared::Compared;
use crate::outcomes::has_prelude;
use crate::parses::{Kept, Parse, Parses};
use crate::release::free_apart;
use star_dialect::Language;
use star_label::files::Files;
use star_reading::parses::Parsed;
use star_reading::reading::{Reads, Trees};
use std::alloc::{AllocError, Global};
use std::sync::{Arc, Wait};
use std::thread::Threads;

/// An arena may have the results of this many texts more than twice the files.
const SPARE_TEXTS: usize = 64;

/// The texts of an arena may have this many bytes more than five quarters of those with results that are kept.
const SPARE_BYTES: usize = 65_536;

/// A result of parsing a text, which is shared with `Parses`, and the bytes of the text.
#[derive(Drop)]
pub struct SharedParse {
    pub parse: Arc<Parse>,
    pub bytes: usize,
}

/// The trees from which readings borrow. None of them goes before the whole arena goes.
#[derive(Drop)]
pub struct Arena {
    /// The trees of texts that a reader of files parses itself.
    pub trees: Trees,
    pub parses: boxcar::Vec<SharedParse>,
}

impl Arena {
    /// Nothing yet. The error: an allocation failed.
    pub fn new(alloc: Global) -> Result<Arena, AllocError> {
        Ok(Arena {
            trees: Trees::new(alloc)?,
            parses: boxcar::Vec::new(alloc)?,
        })
    }

    /// Frees the trees, in a thread of its own.
    pub fn free_apart<R: Threads>(self, rt: &R) {
        free_apart(rt, self);
    }

    /// How many bytes the texts have whose results are in the arena.
    fn bytes(&self) -> usize {
        let mut bytes: usize = 0;
        for (_, shared) in self.parses.iter() {
            bytes = bytes.saturating_add(shared.bytes);
        }
        bytes
    }

    /// Whether the arena is to be freed, to make room: its texts have more than `keep` bytes, or it has many results
    /// that are not kept any more.
    pub fn is_full(&self, files: &Files, parses: &Parses, keep: usize) -> bool {
        let kept = parses.bytes(files);
        let bytes = kept.saturating_add(kept / 4).saturating_add(SPARE_BYTES);
        let count = files.len().saturating_mul(2).saturating_add(SPARE_TEXTS);
        !self.trees.all.is_empty() || self.parses.count() > count || self.bytes() > bytes.min(keep)
    }

    /// Puts a result in, which it shares, and answers it as a reader of files takes it. The error: an allocation
    /// failed.
    fn view_of<'t, R: Wait>(
        &'t self,
        rt: &R,
        parse: &Arc<Parse>,
        bytes: usize,
    ) -> Result<Parsed<'t>, AllocError>
        ensures { IfOk result (λ view. (text : List ℕ) → IsParse text (arc_value parse.now) → IsParsed text view) }
    {
        let parse = Arc::try_clone(parse)?;
        match self.parses.push_shown(rt, SharedParse { parse, bytes }) {
            Ok(pushed) => Ok(self.parses.value(&pushed).parse.view()),
            Err(_) => Err(AllocError),
        }
    }
}

/// The results of reading files, by the numbers of the files, and the results of parsing their texts.
#[derive(Drop)]
pub struct Readings<'t> {
    pub reads: Reads<'t>,
    /// None for a text that is not in the arena.
    pub parses: Vec<Option<Parsed<'t>>>,
    /// The number of the prelude that the files see.
    pub prelude: Option<usize>,
    /// The language in which they are read.
    pub language: Language,
}

/// Makes a row at least this long: none is there at the new places. The error: an allocation failed.
fn lengthen<T: Drop>(row: &mut Vec<Option<T>>, count: usize) -> Result<(), AllocError>
    ensures size { OnOk result (count ≤ vec_len row.new) }
    ensures same { (n : ℕ) (x : T) → slice_get row.new.items n ≡ Some (Some x)
        → slice_get row.old.items n ≡ Some (Some x) }
{
    for _ in row.len()..count {
        row.push(None)?;
    }
    Ok(())
}

/// How many bytes the text of a file has: 0 if there is no file with this number.
fn bytes_of(files: &Files, n: usize) -> usize {
    if n < files.len() {
        files.text(n).len()
    } else {
        0
    }
}

/// Puts a result that is kept for a file, whose text has this many bytes, into the arena, unless the file has one there.
/// The error: an allocation failed.
fn put_view<'t, R: Wait>(
    rt: &R,
    arena: &'t Arena,
    row: &mut Vec<Option<Parsed<'t>>>,
    n: usize,
    kept: &Option<Kept>,
    bytes: usize,
) -> Result<(), AllocError>
    ensures right { OnOk result ((files : List File) → IsKept (text_at files n) kept.now
        → AreParsesOf files row.old.items → AreParsesOf files row.new.items) }
    ensures size { vec_len row.new ≡ vec_len row.old }
    ensures there { OnOk result (n < vec_len row.old → IsSome kept.now
        → IsSome (slice_index_or row.new.items n None)) }
    ensures stays { OnOk result ((m : ℕ) → IsSome (slice_index_or row.old.items m None)
        → IsSome (slice_index_or row.new.items m None)) }
{
    if let Some(kept) = kept {
        if n < row.len() && row[n].is_none() {
            row[n] = Some(arena.view_of(rt, &kept.parse, bytes)?);
        }
    }
    Ok(())
}

/// Takes an entry out of a row, if it is there.
fn forget<T: Drop>(row: &mut Vec<Option<T>>, n: usize)
    ensures gone { (x : T) → slice_get row.new.items n ≢ Some (Some x) }
    ensures others { (m : ℕ) → m ≢ n → slice_get row.new.items m ≡ slice_get row.old.items m }
{
    if n < row.len() {
        row[n] = None;
    }
}

impl<'t> Readings<'t> {
    /// Nothing is known of files that see this prelude, in a language.
    pub fn new(alloc: Global, prelude: Option<usize>, language: Language) -> Readings<'t>
        ensures reads { result.reads.all.items ≡ [] }
        ensures parses { result.parses.items ≡ [] }
        ensures prelude { result.prelude ≡ prelude }
        ensures language { result.language ≡ language }
    {
        Readings {
            reads: Reads::new(alloc),
            parses: Vec::new(alloc),
            prelude,
            language,
        }
    }

    /// Frees the readings, in a thread of its own.
    pub fn free_apart<R: Threads>(self, rt: &R) {
        free_apart(rt, self);
    }

    /// The readings that stay if files take the place of those before, and see this prelude, in a language: those of the
    /// files whose texts stay, if the labels, the prelude and its text and the language stay; else none.
    pub fn after(
        self,
        alloc: Global,
        compared: &Compared<'_>,
        prelude: Option<usize>,
        language: Language,
    ) -> Readings<'t>
        requires { AreReadings compared.now.before self }
        ensures prelude { result.prelude ≡ prelude }
        ensures language { result.language ≡ language }
        ensures readings { AreReadings compared.now.files result }
        ensures stays { let b = compared.now.before in let f = compared.now.files in HaveLabels b f
            → self.entry.prelude ≡ prelude → self.entry.language ≡ language → HasPrelude b f prelude
            → StayIn b f self.entry result }
    {
        if self.prelude != prelude
            || !self.language.is_same(&language)
            || !compared.has_same_labels()
            || !has_prelude(compared, prelude)
        {
            return Readings::new(alloc, prelude, language);
        }
        let mut readings = self;
        readings.forget_changed(compared);
        readings
    }

    /// Takes the readings of files that have another text now out.
    fn forget_changed(&mut self, compared: &Compared<'_>)
        requires { HaveLabels compared.now.before compared.now.files }
        ensures prelude { self.new.prelude ≡ self.old.prelude }
        ensures language { self.new.language ≡ self.old.language }
        ensures left { StayIn compared.now.before compared.now.files self.old self.new }
    {
        for n in 0..compared.count() {
            if !compared.has_text(n) {
                forget(&mut self.reads.all, n);
                forget(&mut self.parses, n);
            }
        }
    }

    /// Puts the results of parsing that are kept into the arena, unless they are there. The error: an allocation failed.
    pub fn take_parses<R: Wait>(
        &mut self,
        rt: &R,
        arena: &'t Arena,
        files: &Files,
        parses: &Parses,
    ) -> Result<(), AllocError>
        requires readings { AreReadings files.now self.old }
        requires parses { AreKept files.now parses.now.all.items }
        ensures readings { OnOk result (AreReadings files.now self.new) }
        ensures reads { self.new.reads ≡ self.old.reads }
        ensures prelude { self.new.prelude ≡ self.old.prelude }
        ensures language { self.new.language ≡ self.old.language }
        ensures all { OnOk result ((n : ℕ) → Has parses.now.all.items n
            → IsSome (slice_index_or self.new.parses.items n None)) }
    {
        lengthen(&mut self.parses, parses.all.len())?;
        for n in 0..parses.all.len() {
            let bytes = bytes_of(files, n);
            put_view(rt, arena, &mut self.parses, n, &parses.all[n], bytes)?;
        }
        Ok(())
    }
}
