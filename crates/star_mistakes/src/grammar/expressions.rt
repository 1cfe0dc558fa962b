//! The reading of expressions: operands, calls, parameters, targets, clauses and displays.

use crate::grammar::{
    Bracket, ENTRY_VALUE, FIRST, OR, Order, Part, Reader, Shape, Want, begins_expression,
    is_comparator, is_operator, joined,
};
use star_lex::token::{Keyword, Kind, Punctuator};
use std::alloc::AllocError;

// Expressions.
impl<'a> Reader<'a> {
    pub(super) fn tests_rest(&mut self, so_far: Option<Shape>) -> Result<(), AllocError> {
        if self.take(Punctuator::Comma) {
            let so_far = Some(joined(so_far, self.shape));
            return self.then(&[Want::Test, Want::TestsRest { so_far }]);
        }
        if so_far.is_some() {
            self.shape = joined(so_far, self.shape);
        }
        Ok(())
    }

    pub(super) fn test(&mut self) -> Result<(), AllocError> {
        if !self.take_word(Keyword::Lambda) {
            return self.then(&[OR, Want::Condition]);
        }
        self.then(&[Want::LambdaBody])?;
        if self.is(Punctuator::Colon) {
            return Ok(());
        }
        self.then(&[Want::Part(Part::Parameters {
            bracket: None,
            order: FIRST,
        })])
    }

    pub(super) fn lambda_body(&mut self) -> Result<(), AllocError> {
        if !self.want(Punctuator::Colon, "`:` after the parameters of a lambda") {
            return Ok(());
        }
        self.then(&[Want::Test, Want::Is(Shape::Other)])
    }

    pub(super) fn condition(&mut self) -> Result<(), AllocError> {
        if self.take_word(Keyword::If) {
            return self.then(&[OR, Want::Else]);
        }
        Ok(())
    }

    pub(super) fn otherwise(&mut self) -> Result<(), AllocError> {
        if !self.take_word(Keyword::Else) {
            self.miss("`else`");
            return Ok(());
        }
        self.then(&[Want::Test, Want::Is(Shape::Other)])
    }

    /// An operand after others, or after a sign.
    fn operand_after(&mut self, begins: bool, is_compared: bool) -> Result<(), AllocError> {
        self.then(&[Want::Operand {
            begins,
            is_compared,
            is_alone: false,
        }])
    }

    pub(super) fn operand(
        &mut self,
        begins: bool,
        is_compared: bool,
        is_alone: bool,
    ) -> Result<(), AllocError> {
        if begins && self.take_word(Keyword::Not) {
            return self.operand_after(true, false);
        }
        if self.take(Punctuator::Plus)
            || self.take(Punctuator::Minus)
            || self.take(Punctuator::Tilde)
        {
            return self.operand_after(false, is_compared);
        }
        self.then(&[
            Want::Suffix,
            Want::Operator {
                is_compared,
                is_alone,
            },
        ])?;
        self.front()
    }

    fn take_comparator(&mut self) -> bool {
        if self.take_word(Keyword::In) {
            return true;
        }
        if self.has(Keyword::Not) && self.next_kind() == Kind::Keyword(Keyword::In) {
            self.skip();
            self.skip();
            return true;
        }
        match self.kind() {
            Kind::Punctuator(sign) if is_comparator(sign) => {
                self.skip();
                true
            }
            _ => false,
        }
    }

    pub(super) fn operator(&mut self, is_compared: bool, is_alone: bool) -> Result<(), AllocError> {
        if !is_alone {
            self.shape = Shape::Other;
        }
        if self.take_word(Keyword::And) || self.take_word(Keyword::Or) {
            return self.operand_after(true, false);
        }
        if !is_compared && self.take_comparator() {
            return self.operand_after(false, true);
        }
        match self.kind() {
            Kind::Punctuator(sign) if is_operator(sign) => {
                self.skip();
                self.operand_after(false, is_compared)
            }
            _ => Ok(()),
        }
    }

    /// The front of a primary.
    fn front(&mut self) -> Result<(), AllocError> {
        match self.kind() {
            Kind::Name => {
                self.skip();
                self.shape = Shape::Name;
                Ok(())
            }
            Kind::Int | Kind::Text => {
                self.skip();
                self.shape = Shape::Other;
                Ok(())
            }
            Kind::Punctuator(Punctuator::LeftParen) => self.parenthesized(),
            Kind::Punctuator(Punctuator::LeftBracket) => {
                self.begin()?;
                self.then(&[Want::Part(Part::Items {
                    so_far: Shape::Row,
                    is_first: true,
                })])
            }
            Kind::Punctuator(Punctuator::LeftBrace) => {
                self.begin()?;
                self.then(&[Want::Part(Part::Entries { is_first: true })])
            }
            _ => {
                self.miss("an expression");
                Ok(())
            }
        }
    }

    pub(super) fn suffix(&mut self) -> Result<(), AllocError> {
        if self.take(Punctuator::Dot) {
            if !self.want_name("a name after `.`") {
                return Ok(());
            }
            self.shape = Shape::Other;
            return self.then(&[Want::Suffix]);
        }
        if self.is(Punctuator::LeftParen) {
            self.begin()?;
            return self.then(&[
                Want::Part(Part::Arguments(FIRST)),
                Want::Close {
                    bracket: Bracket::Paren,
                    wanted: "`,` or `)`",
                },
                Want::Is(Shape::Other),
                Want::Suffix,
            ]);
        }
        if self.is(Punctuator::LeftBracket) {
            self.begin()?;
            if self.is(Punctuator::Colon) {
                return self.then(&[Want::Slice, Want::Suffix]);
            }
            return self.then(&[Want::Test, Want::Index, Want::Suffix]);
        }
        Ok(())
    }

    /// The part after the first expression of a subscript.
    pub(super) fn index(&mut self) -> Result<(), AllocError> {
        if self.is(Punctuator::Colon) {
            return self.slice();
        }
        if self.is(Punctuator::Comma) {
            let close = Want::Close {
                bracket: Bracket::Square,
                wanted: "`,` or `]`",
            };
            return self.then(&[
                Want::TestsRest { so_far: None },
                close,
                Want::Is(Shape::Index),
            ]);
        }
        self.shape = Shape::Index;
        self.close(Bracket::Square, "`]` or `:`");
        Ok(())
    }

    pub(super) fn slice(&mut self) -> Result<(), AllocError> {
        self.skip();
        self.then(&[Want::SliceEnd])?;
        if begins_expression(self.kind()) {
            return self.then(&[Want::Test]);
        }
        Ok(())
    }

    pub(super) fn slice_end(&mut self) -> Result<(), AllocError> {
        let has_stride = self.take(Punctuator::Colon);
        self.then(&[
            Want::Close {
                bracket: Bracket::Square,
                wanted: "`]`",
            },
            Want::Is(Shape::Other),
        ])?;
        if has_stride && begins_expression(self.kind()) {
            return self.then(&[Want::Test]);
        }
        Ok(())
    }
}

// Arguments and parameters.
impl<'a> Reader<'a> {
    pub(super) fn arguments(&mut self, order: Order) -> Result<(), AllocError> {
        let Order { is_named, has_star } = order;
        if self.is(Punctuator::RightParen) {
            return Ok(());
        }
        if self.take(Punctuator::StarStar) {
            return self.then(&[Want::Test, Want::Part(Part::LastArgument)]);
        }
        if has_star && self.is(Punctuator::Star) {
            self.miss("an argument: a call has one `*` at most");
            return Ok(());
        }
        let is_star = self.take(Punctuator::Star);
        let by_name = is_star || self.take_named();
        if !by_name && is_named && begins_expression(self.kind()) {
            self.miss("`name =`: arguments by place come before those by name");
            return Ok(());
        }
        let rest = Order {
            is_named: is_named || by_name,
            has_star: has_star || is_star,
        };
        self.then(&[Want::Test, Want::Part(Part::ArgumentsRest(rest))])
    }

    pub(super) fn arguments_rest(&mut self, order: Order) -> Result<(), AllocError> {
        if self.has(Keyword::For) {
            self.miss("`,` or `)`: a comprehension needs brackets of its own");
            return Ok(());
        }
        if self.take(Punctuator::Comma) {
            return self.then(&[Want::Part(Part::Arguments(order))]);
        }
        Ok(())
    }

    pub(super) fn last_argument(&mut self) {
        self.take(Punctuator::Comma);
        if !self.is(Punctuator::RightParen) {
            self.miss_at(self.at, "`)`: nothing comes after `**`", true);
        }
    }

    /// `*` with its name, which may be absent if another name comes after it.
    fn star_parameter(&mut self) {
        self.skip();
        if self.kind() == Kind::Name {
            self.skip();
            return;
        }
        if self.is(Punctuator::Comma) && self.next_kind() == Kind::Name {
            return;
        }
        self.take(Punctuator::Comma);
        self.miss("the name of a parameter: a bare `*` has one after it");
    }

    pub(super) fn parameters(
        &mut self,
        bracket: Option<Bracket>,
        order: Order,
    ) -> Result<(), AllocError> {
        if self.take(Punctuator::StarStar) {
            if self.want_name("a name after `**`") && bracket.is_some() {
                self.take(Punctuator::Comma);
            }
            return Ok(());
        }
        if self.is(Punctuator::Star) && !order.has_star {
            self.star_parameter();
            let order = Order {
                is_named: order.is_named,
                has_star: true,
            };
            return self.then(&[Want::Part(Part::ParametersRest { bracket, order })]);
        }
        if !self.want_name("the name of a parameter") {
            return Ok(());
        }
        let has_default = self.take(Punctuator::Assign);
        if !has_default && order.is_named && !order.has_star {
            self.miss("`=`: after a parameter with a default each has one");
            return Ok(());
        }
        let order = Order {
            is_named: order.is_named || has_default,
            has_star: order.has_star,
        };
        self.then(&[Want::Part(Part::ParametersRest { bracket, order })])?;
        if has_default {
            return self.then(&[Want::Test]);
        }
        Ok(())
    }

    pub(super) fn parameters_rest(
        &mut self,
        bracket: Option<Bracket>,
        order: Order,
    ) -> Result<(), AllocError> {
        if !self.take(Punctuator::Comma) {
            return Ok(());
        }
        if bracket.is_some() && self.is(Punctuator::RightParen) {
            return Ok(());
        }
        self.then(&[Want::Part(Part::Parameters { bracket, order })])
    }
}

// Targets, clauses and displays.
impl<'a> Reader<'a> {
    pub(super) fn targets(&mut self) -> Result<(), AllocError> {
        let from = self.at;
        self.then(&[Want::Suffix, Want::Part(Part::TargetsRest { from })])?;
        self.front()
    }

    pub(super) fn targets_rest(&mut self, from: usize) -> Result<(), AllocError> {
        if matches!(self.shape, Shape::Other) {
            self.miss_at(from, "a name, an index or a row of these", false);
            return Ok(());
        }
        if self.take(Punctuator::Comma) {
            return self.then(&[Want::Part(Part::Targets)]);
        }
        Ok(())
    }

    pub(super) fn in_word(&mut self) {
        if !self.take_word(Keyword::In) {
            self.miss("`in`");
        }
    }

    pub(super) fn clauses(&mut self) -> Result<(), AllocError> {
        if self.take_word(Keyword::For) {
            return self.then(&[
                Want::Part(Part::Targets),
                Want::In,
                OR,
                Want::Part(Part::Clauses),
            ]);
        }
        if self.take_word(Keyword::If) {
            return self.then(&[OR, Want::Part(Part::Clauses)]);
        }
        Ok(())
    }

    /// The clauses of a comprehension, and its end.
    fn comprehension(&mut self, bracket: Bracket, wanted: &'static str) -> Result<(), AllocError> {
        self.then(&[
            Want::Part(Part::Clauses),
            Want::Close { bracket, wanted },
            Want::Is(Shape::Other),
        ])
    }

    fn parenthesized(&mut self) -> Result<(), AllocError> {
        self.begin()?;
        if self.is(Punctuator::RightParen) {
            self.shape = Shape::Row;
            self.close(Bracket::Paren, "`)`");
            return Ok(());
        }
        self.then(&[Want::Test, Want::Part(Part::ParenRest { so_far: None })])
    }

    pub(super) fn paren_rest(&mut self, so_far: Option<Shape>) -> Result<(), AllocError> {
        if self.has(Keyword::For) {
            self.miss("`,` or `)`: a comprehension stands in `[ ]` or `{ }`");
            return Ok(());
        }
        if self.take(Punctuator::Comma) {
            self.shape = joined(so_far, self.shape);
            if !self.is(Punctuator::RightParen) {
                let so_far = Some(self.shape);
                return self.then(&[Want::Test, Want::Part(Part::ParenRest { so_far })]);
            }
        } else if so_far.is_some() {
            self.shape = joined(so_far, self.shape);
        }
        self.close(Bracket::Paren, "`,` or `)`");
        Ok(())
    }

    pub(super) fn items(&mut self, so_far: Shape, is_first: bool) -> Result<(), AllocError> {
        if self.is(Punctuator::RightBracket) {
            self.shape = so_far;
            self.close(Bracket::Square, "`]`");
            return Ok(());
        }
        self.then(&[Want::Test, Want::Part(Part::ItemsRest { so_far, is_first })])
    }

    pub(super) fn items_rest(&mut self, so_far: Shape, is_first: bool) -> Result<(), AllocError> {
        if is_first && self.has(Keyword::For) {
            return self.comprehension(Bracket::Square, "`for`, `if` or `]`");
        }
        let so_far = joined(Some(so_far), self.shape);
        if self.take(Punctuator::Comma) {
            return self.then(&[Want::Part(Part::Items {
                so_far,
                is_first: false,
            })]);
        }
        self.shape = so_far;
        self.close(Bracket::Square, "`,` or `]`");
        Ok(())
    }

    pub(super) fn entries(&mut self, is_first: bool) -> Result<(), AllocError> {
        if self.is(Punctuator::RightBrace) {
            self.shape = Shape::Other;
            self.close(Bracket::Brace, "`}`");
            return Ok(());
        }
        self.then(&[Want::Test, Want::Part(Part::EntryValue { is_first })])
    }

    pub(super) fn entry_value(&mut self, is_first: bool) -> Result<(), AllocError> {
        if !self.want(Punctuator::Colon, ENTRY_VALUE) {
            return Ok(());
        }
        self.then(&[Want::Test, Want::Part(Part::EntriesRest { is_first })])
    }

    pub(super) fn entries_rest(&mut self, is_first: bool) -> Result<(), AllocError> {
        if is_first && self.has(Keyword::For) {
            return self.comprehension(Bracket::Brace, "`for`, `if` or `}`");
        }
        if self.take(Punctuator::Comma) {
            return self.then(&[Want::Part(Part::Entries { is_first: false })]);
        }
        self.shape = Shape::Other;
        self.close(Bracket::Brace, "`,` or `}`");
        Ok(())
    }
}
