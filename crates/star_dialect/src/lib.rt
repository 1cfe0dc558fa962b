//! The dialects of the language, the names whose calls are recorded, and the mode in which files run.
//!
//! The types are shared by the definitions and the code of all crates above. `Dialect::named` is the one place where a
//! word becomes a dialect.
#![tactic(auto)]

ghost use Rattle.std.specs.Prelude.{◌≡◌, ◌<◌, ◌^◌, ◌++◌, ◌∷◌, [], true, IfOk, OnErr, OnOk, length};
ghost use Rattle.star_dialect.specs.Words.{dialect_named, index_of, with_name};

use star_text::Text;
use std::alloc::{AllocError, Global};
use std::marker::Model;

/// Which names and methods a program has.
#[derive(Clone, Copy, Debug, PartialEq, Eq)]
pub enum Dialect {
    /// Those of the core language.
    Core,
    /// Those of the core language, and those of the extended language.
    Extended,
}

/// The names whose calls are recorded, fewer than 2^32. A recorded function is known by the place of its name.
#[derive(Debug)]
pub struct Recorded {
    names: Vec<Text>,
}

impl Drop for Recorded {
    fn drop(self) {
        let Recorded { names: _ } = self;
    }
}

impl Model for Recorded {
    ghost use Rattle.std.specs.Prelude.{List, ℕ, ◌<◌, ◌^◌, length as length_of};

    ghost Value = { List (List ℕ) };

    ghost view = { λ r. r.names.items };

    ghost invariant = { λ r. length_of r.names.items < 2 ^ 32 };
}

/// The language of a program: a dialect, and the names whose calls are recorded.
#[derive(Debug, Drop)]
pub struct Language {
    /// Which names and methods a program has.
    pub dialect: Dialect,
    /// The names that its host has further. None in the core.
    pub recorded: Recorded,
}

/// What each file of a request is run with: the same for all files.
#[derive(Debug, Drop)]
pub struct Mode {
    /// How many steps a file may take.
    pub steps: u32,
    /// The language of its text.
    pub language: Language,
}

impl Dialect {
    /// The dialect that a word names: `core` or `extended`. `None` for another word.
    pub fn named(word: &str) -> Option<Dialect>
        ensures { result ≡ dialect_named word.now }
    {
        match word {
            "core" => Some(Dialect::Core),
            "extended" => Some(Dialect::Extended),
            _ => None,
        }
    }
}

/// How many names there may be.
const MOST_NAMES: usize = 4_294_967_295;

/// The same texts, which are shared.
fn shares(alloc: Global, texts: &[Text]) -> Result<Vec<Text>, AllocError>
    ensures { IfOk result (λ again. again.items ≡ texts.now) }
{
    let mut again = Vec::with_capacity(alloc, texts.len())?;
    for text in texts {
        again.push(text.share()?)?;
    }
    Ok(again)
}

/// Whether this is the same text.
fn is_equal(text: &Text, other: &Text) -> bool
    ensures equal { result ≡ true → text.now ≡ other.now }
    ensures same { text.now ≡ other.now → result ≡ true }
{
    text.as_str() == other.as_str()
}

/// Whether these are the same texts in the same order.
fn are_same(texts: &[Text], others: &[Text]) -> bool
    ensures equal { result ≡ true → texts.now ≡ others.now }
    ensures same { texts.now ≡ others.now → result ≡ true }
{
    if texts.len() != others.len() {
        return false;
    }
    for n in 0..texts.len() {
        if !is_equal(&texts[n], &others[n]) {
            return false;
        }
    }
    true
}

impl Recorded {
    /// No names.
    pub fn none(alloc: Global) -> Recorded
        ensures { result ≡ [] }
    {
        Recorded {
            names: Vec::new(alloc),
        }
    }

    /// The names.
    pub fn names(&self) -> &[Text]
        ensures names { result.now ≡ self.now }
        ensures few { length result.now < 2 ^ 32 }
    {
        self.names.as_slice()
    }

    /// The place of a name. `None` if it is not among them.
    pub fn index(&self, name: &str) -> Option<u32>
        ensures { result ≡ index_of name.now self.now }
    {
        let mut at: u32 = 0;
        for known in self.names.as_slice() {
            if known.as_str() == name {
                return Some(at);
            }
            at += 1;
        }
        None
    }

    /// Adds a name after all others. The error: an allocation failed, or there are too many.
    pub fn push(&mut self, name: Text) -> Result<(), AllocError>
        ensures added { OnOk result (self.new ≡ self.old ++ name ∷ []) }
        ensures refused { OnErr result (self.new ≡ self.old) }
    {
        if self.names.len() >= MOST_NAMES {
            return Err(AllocError);
        }
        self.names.push(name)?;
        Ok(())
    }

    /// Adds a name, unless it is among them. The error: an allocation failed, or there are too many.
    pub fn add(&mut self, alloc: Global, name: &str) -> Result<(), AllocError>
        ensures added { OnOk result (self.new ≡ with_name self.old name.now) }
        ensures refused { OnErr result (self.new ≡ self.old) }
    {
        if self.index(name).is_some() {
            return Ok(());
        }
        self.push(Text::new(alloc, name)?)
    }

    /// The same names, which are shared. The error: an allocation failed.
    pub fn share(&self, alloc: Global) -> Result<Recorded, AllocError>
        ensures { IfOk result (λ again. again ≡ self.now) }
    {
        Ok(Recorded {
            names: shares(alloc, self.names.as_slice())?,
        })
    }

    /// Whether these are the same names in the same order.
    pub fn is_same(&self, other: &Recorded) -> bool
        ensures equal { result ≡ true → self.now ≡ other.now }
        ensures same { self.now ≡ other.now → result ≡ true }
    {
        are_same(self.names.as_slice(), other.names.as_slice())
    }
}

impl Language {
    /// A dialect, in which no calls are recorded.
    pub fn of(alloc: Global, dialect: Dialect) -> Language
        ensures { result ≡ record { dialect = dialect; recorded = [] } }
    {
        Language {
            dialect,
            recorded: Recorded::none(alloc),
        }
    }

    /// The same language. The error: an allocation failed.
    pub fn share(&self, alloc: Global) -> Result<Language, AllocError>
        ensures { IfOk result (λ again. again ≡ self.now) }
    {
        Ok(Language {
            dialect: self.dialect,
            recorded: self.recorded.share(alloc)?,
        })
    }

    /// Whether it is the same language.
    pub fn is_same(&self, other: &Language) -> bool
        ensures equal { result ≡ true → self.now ≡ other.now }
        ensures same { self.now ≡ other.now → result ≡ true }
    {
        self.dialect == other.dialect && self.recorded.is_same(&other.recorded)
    }
}

impl Mode {
    /// The core language, with these steps.
    pub fn core(alloc: Global, steps: u32) -> Mode
        ensures { result ≡ record { steps = steps; language = record { dialect = Dialect.Core; recorded = [] } } }
    {
        Mode {
            steps,
            language: Language::of(alloc, Dialect::Core),
        }
    }

    /// The same mode. The error: an allocation failed.
    pub fn share(&self, alloc: Global) -> Result<Mode, AllocError>
        ensures { IfOk result (λ again. again ≡ self.now) }
    {
        Ok(Mode {
            steps: self.steps,
            language: self.language.share(alloc)?,
        })
    }

    /// Whether it is the same mode.
    pub fn is_same(&self, other: &Mode) -> bool
        ensures equal { result ≡ true → self.now ≡ other.now }
        ensures same { self.now ≡ other.now → result ≡ true }
    {
        self.steps == other.steps && self.language.is_same(&other.language)
    }
}
