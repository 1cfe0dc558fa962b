//! Texts that were parsed before.

ghost use Rattle.std.specs.Prelude.{IfSome};
ghost use Rattle.star_reading.specs.Parsed.{AreParsesOf, IsParsed};

use star_label::files::Files;
use star_label::label::Label;
use star_reading::parses::Parsed;

/// Files, and the results of parsing the texts of some of them.
#[derive(Clone, Copy)]
pub struct Known<'a, 't> {
    /// The files.
    pub files: &'a Files,
    /// The results, by the numbers of the files.
    pub parses: &'a [Option<Parsed<'t>>],
}

impl<'a, 't> Known<'a, 't> {
    /// The result of parsing a text: none if the file at the label has another one, or was not parsed.
    pub fn parse_of(&self, label: &Label, text: &str) -> Option<Parsed<'t>>
        requires { AreParsesOf self.now.files.now self.now.parses.now }
        ensures { IfSome result (IsParsed text.now) }
    {
        let n = self.files.find(label)?;
        if n < self.parses.len() && self.files.text(n) == text {
            return self.parses[n];
        }
        None
    }
}
