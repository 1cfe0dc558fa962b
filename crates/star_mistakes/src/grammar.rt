//! The first token of a file that the grammar does not read, and the tokens that could be there instead.
//!
//! The parser goes back where a production does not fit, so it cannot say how far it came. This reader goes over the
//! tokens from left to right and never back. It makes no tree, and runs only if the parser has found bad syntax. The
//! parts that are still to be read are on a stack of `Want`s, the next one on top.

ghost use Rattle.std.specs.Prelude.{◌<◌, length, IfOk, IfSome};

mod expressions;
mod statements;

use star_lex::token::{Keyword, Kind, Punctuator, Token};
use std::alloc::{AllocError, Global};

/// Where the reading of a file ends too soon.
#[derive(Clone, Copy)]
pub(crate) struct Miss {
    /// The number of the token that cannot be used.
    pub token: usize,
    /// The part that could be there, in words.
    pub wanted: &'static str,
    /// The number of the bracket that is open there, the innermost one.
    pub open: Option<usize>,
    /// Whether a comma or a closing bracket is missing.
    pub in_list: bool,
}

/// The part that is expected where a statement could end.
pub(crate) const LINE_END: &str = "the end of the line";

/// The part that is expected after the key of an entry of a dictionary.
pub(crate) const ENTRY_VALUE: &str = "`:` and the value of the key";

/// How many wants are read for a token, at most.
const WANTS: usize = 20;

/// The shape of an expression, as far as it decides whether the expression may be before `=`.
#[derive(Clone, Copy)]
enum Shape {
    Name,
    Index,
    /// A tuple or a list of names, indexes and rows.
    Row,
    Other,
}

/// The brackets around parameters or a display.
#[derive(Clone, Copy)]
enum Bracket {
    Paren,
    Square,
    Brace,
}

/// The parameters or arguments before a place, as far as they decide which may come next.
#[derive(Clone, Copy)]
struct Order {
    /// A default, or an argument by name.
    is_named: bool,
    has_star: bool,
}

/// A part of arguments, parameters, targets, clauses or displays that is still to be read.
#[derive(Clone, Copy)]
enum Part {
    Arguments(Order),
    ArgumentsRest(Order),
    /// The part after the argument of `**`.
    LastArgument,
    Parameters {
        bracket: Option<Bracket>,
        order: Order,
    },
    ParametersRest {
        bracket: Option<Bracket>,
        order: Order,
    },
    Targets,
    TargetsRest {
        from: usize,
    },
    Clauses,
    /// The part after an item in parentheses.
    ParenRest {
        so_far: Option<Shape>,
    },
    Items {
        so_far: Shape,
        is_first: bool,
    },
    ItemsRest {
        so_far: Shape,
        is_first: bool,
    },
    Entries {
        is_first: bool,
    },
    EntryValue {
        is_first: bool,
    },
    EntriesRest {
        is_first: bool,
    },
}

/// A part that is still to be read.
#[derive(Clone, Copy)]
enum Want {
    /// Statements up to the end of the file.
    File,
    Statement,
    /// The part after the body of an `if`.
    Arms,
    Suite,
    /// Statements up to the end of an indented block.
    Block,
    Small,
    /// The part after a small statement: `;` and another one, or the end of the line.
    LineRest,
    /// The part after an expression that begins a statement. The expression begins at this token.
    Assignment {
        from: usize,
    },
    /// The names of a load.
    Loaded,
    /// Expressions between commas.
    Tests,
    TestsRest {
        so_far: Option<Shape>,
    },
    Test,
    /// The part after an expression: `if`, or nothing.
    Condition,
    Else,
    LambdaBody,
    /// An operand with the signs before it. `not` may be before one that begins a comparison.
    Operand {
        begins: bool,
        is_compared: bool,
        is_alone: bool,
    },
    /// The part after an operand: an operator and another operand, or nothing.
    Operator {
        is_compared: bool,
        is_alone: bool,
    },
    /// The part after the front of a primary: a name, arguments or an index.
    Suffix,
    /// The expression that was read has this shape.
    Is(Shape),
    Index,
    Slice,
    SliceEnd,
    Close {
        bracket: Bracket,
        wanted: &'static str,
    },
    In,
    Part(Part),
}

/// An `Or` of the grammar: no condition and no lambda.
const OR: Want = Want::Operand {
    begins: true,
    is_compared: false,
    is_alone: true,
};

const FIRST: Order = Order {
    is_named: false,
    has_star: false,
};

#[derive(Drop)]
struct Reader<'a> {
    text: &'a str,
    tokens: &'a [Token],
    at: usize,
    /// The shape of the expression that was read last.
    shape: Shape,
    wants: Vec<Want>,
    /// The numbers of the brackets that are open, the innermost last.
    open: Vec<usize>,
    miss: Option<Miss>,
}

/// The shape of a row, from the shape of the items so far and the shape of the last one.
fn joined(so_far: Option<Shape>, last: Shape) -> Shape {
    match (so_far, last) {
        (Some(Shape::Other), _) | (_, Shape::Other) => Shape::Other,
        _ => Shape::Row,
    }
}

fn is_comparator(sign: Punctuator) -> bool {
    matches!(
        sign,
        Punctuator::EqualEqual
            | Punctuator::NotEqual
            | Punctuator::Less
            | Punctuator::Greater
            | Punctuator::LessEqual
            | Punctuator::GreaterEqual
    )
}

fn is_operator(sign: Punctuator) -> bool {
    matches!(
        sign,
        Punctuator::Bar
            | Punctuator::Caret
            | Punctuator::Ampersand
            | Punctuator::ShiftLeft
            | Punctuator::ShiftRight
            | Punctuator::Plus
            | Punctuator::Minus
            | Punctuator::Star
            | Punctuator::SlashSlash
            | Punctuator::Percent
    )
}

fn is_augmenting(sign: Punctuator) -> bool {
    matches!(
        sign,
        Punctuator::PlusAssign
            | Punctuator::MinusAssign
            | Punctuator::StarAssign
            | Punctuator::SlashSlashAssign
            | Punctuator::PercentAssign
            | Punctuator::AmpersandAssign
            | Punctuator::BarAssign
            | Punctuator::CaretAssign
            | Punctuator::ShiftLeftAssign
            | Punctuator::ShiftRightAssign
    )
}

fn begins_expression(kind: Kind) -> bool {
    match kind {
        Kind::Name | Kind::Int | Kind::Text => true,
        Kind::Keyword(Keyword::Not | Keyword::Lambda) => true,
        Kind::Punctuator(sign) => matches!(
            sign,
            Punctuator::LeftParen
                | Punctuator::LeftBracket
                | Punctuator::LeftBrace
                | Punctuator::Plus
                | Punctuator::Minus
                | Punctuator::Tilde
        ),
        _ => false,
    }
}

impl Bracket {
    /// The sign that closes it.
    fn end(self) -> Punctuator {
        match self {
            Bracket::Paren => Punctuator::RightParen,
            Bracket::Square => Punctuator::RightBracket,
            Bracket::Brace => Punctuator::RightBrace,
        }
    }
}

// Looking at tokens and taking them.
impl<'a> Reader<'a> {
    fn kind_at(&self, at: usize) -> Kind {
        match self.tokens.get(at) {
            Some(token) => token.kind,
            None => Kind::End,
        }
    }

    fn kind(&self) -> Kind {
        self.kind_at(self.at)
    }

    fn next_kind(&self) -> Kind {
        self.kind_at(self.at.saturating_add(1))
    }

    fn is(&self, sign: Punctuator) -> bool {
        self.kind() == Kind::Punctuator(sign)
    }

    fn has(&self, keyword: Keyword) -> bool {
        self.kind() == Kind::Keyword(keyword)
    }

    fn skip(&mut self) {
        self.at = self.at.saturating_add(1);
    }

    fn take(&mut self, sign: Punctuator) -> bool {
        let found = self.is(sign);
        if found {
            self.skip();
        }
        found
    }

    fn take_word(&mut self, keyword: Keyword) -> bool {
        let found = self.has(keyword);
        if found {
            self.skip();
        }
        found
    }

    /// A name directly before `=`.
    fn take_named(&mut self) -> bool {
        let found = self.kind() == Kind::Name
            && self.next_kind() == Kind::Punctuator(Punctuator::Assign);
        if found {
            self.skip();
            self.skip();
        }
        found
    }

    fn miss_at(&mut self, token: usize, wanted: &'static str, in_list: bool) {
        self.miss = Some(Miss {
            token,
            wanted,
            open: self.open.last().copied(),
            in_list,
        });
    }

    /// The token here cannot be used.
    fn miss(&mut self, wanted: &'static str) {
        self.miss_at(self.at, wanted, false);
    }

    /// The sign, or a miss.
    fn want(&mut self, sign: Punctuator, wanted: &'static str) -> bool {
        let found = self.take(sign);
        if !found {
            self.miss(wanted);
        }
        found
    }

    /// A name, or a miss.
    fn want_name(&mut self, wanted: &'static str) -> bool {
        let found = self.kind() == Kind::Name;
        if found {
            self.skip();
        } else {
            self.miss(wanted);
        }
        found
    }

    /// The bracket here is open from here on.
    fn begin(&mut self) -> Result<(), AllocError> {
        self.open.push(self.at)?;
        self.skip();
        Ok(())
    }

    /// These are read next, in this order.
    fn then(&mut self, wants: &[Want]) -> Result<(), AllocError> {
        for want in wants.iter().rev() {
            self.wants.push(*want)?;
        }
        Ok(())
    }

    fn close(&mut self, bracket: Bracket, wanted: &'static str) {
        if self.take(bracket.end()) {
            let _ = self.open.pop();
        } else {
            self.miss_at(self.at, wanted, true);
        }
    }
}

// The reading of all parts.
impl<'a> Reader<'a> {
    fn part(&mut self, part: Part) -> Result<(), AllocError> {
        match part {
            Part::Arguments(order) => self.arguments(order),
            Part::ArgumentsRest(order) => self.arguments_rest(order),
            Part::LastArgument => Ok(self.last_argument()),
            Part::Parameters { bracket, order } => self.parameters(bracket, order),
            Part::ParametersRest { bracket, order } => self.parameters_rest(bracket, order),
            Part::Targets => self.targets(),
            Part::TargetsRest { from } => self.targets_rest(from),
            Part::Clauses => self.clauses(),
            Part::ParenRest { so_far } => self.paren_rest(so_far),
            Part::Items { so_far, is_first } => self.items(so_far, is_first),
            Part::ItemsRest { so_far, is_first } => self.items_rest(so_far, is_first),
            Part::Entries { is_first } => self.entries(is_first),
            Part::EntryValue { is_first } => self.entry_value(is_first),
            Part::EntriesRest { is_first } => self.entries_rest(is_first),
        }
    }

    fn read(&mut self, want: Want) -> Result<(), AllocError> {
        match want {
            Want::File => self.file(),
            Want::Statement => self.statement(),
            Want::Arms => self.arms(),
            Want::Suite => self.suite(),
            Want::Block => self.block(),
            Want::Small => self.small(),
            Want::LineRest => self.line_rest(),
            Want::Assignment { from } => self.assignment(from),
            Want::Loaded => self.loaded(),
            Want::Tests => self.then(&[Want::Test, Want::TestsRest { so_far: None }]),
            Want::TestsRest { so_far } => self.tests_rest(so_far),
            Want::Test => self.test(),
            Want::Condition => self.condition(),
            Want::Else => self.otherwise(),
            Want::LambdaBody => self.lambda_body(),
            Want::Operand {
                begins,
                is_compared,
                is_alone,
            } => self.operand(begins, is_compared, is_alone),
            Want::Operator {
                is_compared,
                is_alone,
            } => self.operator(is_compared, is_alone),
            Want::Suffix => self.suffix(),
            Want::Is(shape) => Ok(self.shape = shape),
            Want::Index => self.index(),
            Want::Slice => self.slice(),
            Want::SliceEnd => self.slice_end(),
            Want::Close { bracket, wanted } => Ok(self.close(bracket, wanted)),
            Want::In => Ok(self.in_word()),
            Want::Part(part) => self.part(part),
        }
    }
}

/// The first token that the grammar does not read; `None` if it reads all of them.
pub(crate) fn first_miss<'a>(
    alloc: Global,
    text: &'a str,
    tokens: &'a [Token],
) -> Result<Option<Miss>, AllocError>
    ensures { IfOk result (λ found. IfSome found (λ miss. miss.token < length tokens.now)) }
{
    let mut reader = Reader {
        text,
        tokens,
        at: 0,
        shape: Shape::Other,
        wants: vec![in alloc; Want::File]?,
        open: Vec::new(alloc),
        miss: None,
    };
    for _ in 0..tokens.len().saturating_add(1).saturating_mul(WANTS) {
        let Some(want) = reader.wants.pop() else {
            return Ok(None);
        };
        reader.read(want)?;
        if let Some(miss) = reader.miss {
            return Ok(if miss.token < tokens.len() {
                Some(miss)
            } else {
                None
            });
        }
    }
    Ok(None)
}
