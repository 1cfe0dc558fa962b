//! The reading of statements.

use crate::grammar::{
    Bracket, FIRST, LINE_END, Part, Reader, Shape, Want, begins_expression, is_augmenting,
};
use crate::place::word_of;
use star_lex::token::{Keyword, Kind, Punctuator};
use star_syntax::name::is_name;
use std::alloc::AllocError;

impl<'a> Reader<'a> {
    pub(super) fn file(&mut self) -> Result<(), AllocError> {
        if self.kind() == Kind::End {
            return Ok(());
        }
        self.then(&[Want::Statement, Want::File])
    }

    pub(super) fn statement(&mut self) -> Result<(), AllocError> {
        if self.take_word(Keyword::Def) {
            return self.definition();
        }
        if self.take_word(Keyword::If) {
            return self.then(&[Want::Test, Want::Suite, Want::Arms]);
        }
        if self.take_word(Keyword::For) {
            return self.then(&[
                Want::Part(Part::Targets),
                Want::In,
                Want::Tests,
                Want::Suite,
            ]);
        }
        if self.kind() == Kind::Indent {
            self.miss("a statement: this line is indented more than the one before");
            return Ok(());
        }
        self.then(&[Want::Small, Want::LineRest])
    }

    fn definition(&mut self) -> Result<(), AllocError> {
        if !self.want_name("the name of the function") {
            return Ok(());
        }
        if !self.is(Punctuator::LeftParen) {
            self.miss("`(`");
            return Ok(());
        }
        self.begin()?;
        self.then(&[
            Want::Close {
                bracket: Bracket::Paren,
                wanted: "`,` or `)`",
            },
            Want::Suite,
        ])?;
        if self.is(Punctuator::RightParen) {
            return Ok(());
        }
        self.then(&[Want::Part(Part::Parameters {
            bracket: Some(Bracket::Paren),
            order: FIRST,
        })])
    }

    pub(super) fn arms(&mut self) -> Result<(), AllocError> {
        if self.take_word(Keyword::Elif) {
            return self.then(&[Want::Test, Want::Suite, Want::Arms]);
        }
        if self.take_word(Keyword::Else) {
            return self.then(&[Want::Suite]);
        }
        Ok(())
    }

    pub(super) fn suite(&mut self) -> Result<(), AllocError> {
        if !self.want(Punctuator::Colon, "`:`") {
            return Ok(());
        }
        if self.kind() != Kind::Newline {
            return self.then(&[Want::Small, Want::LineRest]);
        }
        self.skip();
        if self.kind() != Kind::Indent {
            self.miss("an indented block");
            return Ok(());
        }
        self.skip();
        self.then(&[Want::Statement, Want::Block])
    }

    pub(super) fn block(&mut self) -> Result<(), AllocError> {
        if self.kind() == Kind::Outdent {
            self.skip();
            return Ok(());
        }
        self.then(&[Want::Statement, Want::Block])
    }

    pub(super) fn line_rest(&mut self) -> Result<(), AllocError> {
        let is_more = self.take(Punctuator::Semicolon);
        if self.kind() == Kind::Newline {
            self.skip();
            return Ok(());
        }
        if is_more {
            return self.then(&[Want::Small, Want::LineRest]);
        }
        self.miss(LINE_END);
        Ok(())
    }

    pub(super) fn small(&mut self) -> Result<(), AllocError> {
        match self.kind() {
            Kind::Keyword(Keyword::Return) => {
                self.skip();
                if begins_expression(self.kind()) {
                    return self.then(&[Want::Tests]);
                }
                Ok(())
            }
            Kind::Keyword(Keyword::Break | Keyword::Continue | Keyword::Pass) => {
                self.skip();
                Ok(())
            }
            Kind::Keyword(Keyword::Load) => self.load(),
            kind if begins_expression(kind) => {
                let from = self.at;
                self.then(&[Want::Tests, Want::Assignment { from }])
            }
            _ => {
                self.miss("a statement");
                Ok(())
            }
        }
    }

    pub(super) fn assignment(&mut self, from: usize) -> Result<(), AllocError> {
        let Kind::Punctuator(sign) = self.kind() else {
            return Ok(());
        };
        if sign == Punctuator::Assign && matches!(self.shape, Shape::Other) {
            self.miss_at(from, "a name, an index or a row of these before `=`", false);
            return Ok(());
        }
        let is_short = is_augmenting(sign);
        if is_short && !matches!(self.shape, Shape::Name | Shape::Index) {
            self.miss_at(from, "a name or an index before this sign", false);
            return Ok(());
        }
        if sign == Punctuator::Assign || is_short {
            self.skip();
            return self.then(&[Want::Tests]);
        }
        Ok(())
    }

    fn load(&mut self) -> Result<(), AllocError> {
        self.skip();
        if !self.is(Punctuator::LeftParen) {
            self.miss("`(` after `load`");
            return Ok(());
        }
        self.begin()?;
        if self.kind() != Kind::Text {
            self.miss("the label of a file, a string");
            return Ok(());
        }
        self.skip();
        self.then(&[Want::Loaded])
    }

    /// Whether the token here is a string that has the form of a name, or has a backslash in it.
    fn is_loaded_name(&self) -> bool {
        let Some(token) = self.tokens.get(self.at) else {
            return false;
        };
        let bare = word_of(self.text, token).trim_matches(['"', '\'']);
        token.kind == Kind::Text && (is_name(bare.as_bytes()) || bare.contains('\\'))
    }

    pub(super) fn loaded(&mut self) -> Result<(), AllocError> {
        if !self.take(Punctuator::Comma) || self.is(Punctuator::RightParen) {
            self.close(Bracket::Paren, "`,` or `)`");
            return Ok(());
        }
        self.take_named();
        if !self.is_loaded_name() {
            self.miss("the name that is loaded, a string with a name in it");
            return Ok(());
        }
        self.skip();
        self.then(&[Want::Loaded])
    }
}
