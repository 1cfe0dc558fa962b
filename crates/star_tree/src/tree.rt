//! The tree of a file: one variant for each production of the grammar in `docs/LANGUAGE.md`, "Grammar".

use sqlite_items::{Boxed, Items};
use star_text::Text;

/// Where a part of a file begins.
#[derive(Clone, Copy, Debug, PartialEq, Eq)]
pub struct Position {
    /// The line, from 1.
    pub line: usize,
    /// The number of its first token among the file's tokens, from 0.
    pub token: usize,
}

/// A name that is read or bound.
#[derive(Drop)]
pub struct Name {
    pub text: Text,
    pub position: Position,
}

/// A string whose position matters: in a load statement.
#[derive(Drop)]
pub struct Literal {
    pub text: Text,
    pub position: Position,
}

/// A sign before an operand.
#[derive(Clone, Copy, Debug, PartialEq, Eq)]
pub enum UnaryOperator {
    Plus,
    Minus,
    Invert,
    Not,
}

/// A binary operator; it groups to the left. In an augmented assignment it comes before the `=`.
#[derive(Clone, Copy, Debug, PartialEq, Eq)]
pub enum BinaryOperator {
    Add,
    Subtract,
    Multiply,
    FloorDivide,
    Modulo,
    ShiftLeft,
    ShiftRight,
    BitAnd,
    BitXor,
    BitOr,
}

/// A sign of a comparison. Comparisons do not chain.
#[derive(Clone, Copy, Debug, PartialEq, Eq)]
pub enum Comparator {
    Equal,
    NotEqual,
    Less,
    Greater,
    LessEqual,
    GreaterEqual,
    In,
    NotIn,
}

/// A value that a statement computes. Parentheses leave no mark. Forty bytes: the large parts of rare forms are in
/// boxes.
#[cycle(tree)]
#[derive(Drop)]
pub enum Expression {
    Name(Name),
    /// From 0 to 9223372036854775807: a sign before it is a `Unary`.
    Int(i64),
    Text(Text),
    Tuple(Items<Expression>),
    List(Items<Expression>),
    Dict(Items<Entry>),
    /// `[element for ..]`; the position is the bracket's.
    ListComprehension {
        position: Position,
        element: Boxed<Expression>,
        clauses: Boxed<Clauses>,
    },
    /// `{key: value for ..}`; the position is the brace's.
    DictComprehension {
        position: Position,
        entry: Boxed<Entry>,
        clauses: Boxed<Clauses>,
    },
    Unary {
        operator: UnaryOperator,
        operand: Boxed<Expression>,
    },
    Binary {
        operator: BinaryOperator,
        left: Boxed<Expression>,
        right: Boxed<Expression>,
    },
    Compare {
        comparator: Comparator,
        left: Boxed<Expression>,
        right: Boxed<Expression>,
    },
    And {
        left: Boxed<Expression>,
        right: Boxed<Expression>,
    },
    Or {
        left: Boxed<Expression>,
        right: Boxed<Expression>,
    },
    /// `chosen if condition else otherwise`.
    Conditional {
        condition: Boxed<Expression>,
        chosen: Boxed<Expression>,
        otherwise: Boxed<Expression>,
    },
    /// The position is the position of `lambda`.
    Lambda {
        position: Position,
        parameters: Boxed<Items<Parameter>>,
        body: Boxed<Expression>,
    },
    Call {
        function: Boxed<Expression>,
        arguments: Items<Argument>,
    },
    Attribute {
        value: Boxed<Expression>,
        name: Name,
    },
    Index {
        value: Boxed<Expression>,
        index: Boxed<Expression>,
    },
    Slice {
        value: Boxed<Expression>,
        start: Option<Boxed<Expression>>,
        stop: Option<Boxed<Expression>>,
        stride: Option<Boxed<Expression>>,
    },
}

/// `key: value` in a dictionary.
#[cycle(tree)]
#[derive(Drop)]
pub struct Entry {
    pub key: Expression,
    pub value: Expression,
}

/// An argument of a call.
#[cycle(tree)]
#[derive(Drop)]
pub enum Argument {
    Positional(Expression),
    Named { name: Name, value: Expression },
    /// `*value`.
    Star(Expression),
    /// `**value`.
    StarStar(Expression),
}

/// A parameter of a `def` or a `lambda`.
#[cycle(tree)]
#[derive(Drop)]
pub enum Parameter {
    Plain(Name),
    /// `name = default`.
    Default { name: Name, default: Expression },
    /// `*name`.
    Star(Name),
    /// `*` alone: the parameters after it are given by keyword only.
    BareStar,
    /// `**name`.
    StarStar(Name),
}

/// A target: a value is bound or written to it.
#[cycle(tree)]
#[derive(Drop)]
pub enum Target {
    Name(Name),
    Index {
        value: Boxed<Expression>,
        index: Boxed<Expression>,
    },
    /// A tuple, also one without parentheses, of targets that a value is unpacked to.
    Tuple(Items<Target>),
    /// A list display of targets.
    List(Items<Target>),
}

/// The clauses of a comprehension: a `for`, and the clauses after it.
#[cycle(tree)]
#[derive(Drop)]
pub struct Clauses {
    pub target: Target,
    pub iterable: Boxed<Expression>,
    pub more: Items<Clause>,
}

/// A further clause of a comprehension.
#[cycle(tree)]
#[derive(Drop)]
pub enum Clause {
    For {
        target: Target,
        iterable: Expression,
    },
    If(Expression),
}

/// A statement, with the position of its first token.
#[cycle(statement)]
#[derive(Drop)]
pub struct Statement {
    pub position: Position,
    pub form: Form,
}

/// The form of a statement.
#[cycle(statement)]
#[derive(Drop)]
pub enum Form {
    Expression(Expression),
    Assign {
        target: Target,
        value: Expression,
    },
    /// `target operator= value`; the target is a name or an index.
    Augment {
        target: Target,
        operator: BinaryOperator,
        value: Expression,
    },
    Pass,
    Break,
    Continue,
    Return(Option<Expression>),
    Load {
        module: Literal,
        names: Items<LoadedName>,
    },
    /// `if` and its `elif`s, at least one arm, then the statements after `else`, none without it.
    If {
        arms: Items<Arm>,
        otherwise: Items<Statement>,
    },
    For {
        target: Target,
        iterable: Expression,
        body: Items<Statement>,
    },
    Def {
        name: Name,
        parameters: Items<Parameter>,
        body: Items<Statement>,
    },
}

/// `if condition:` or `elif condition:` with its statements.
#[cycle(statement)]
#[derive(Drop)]
pub struct Arm {
    pub condition: Expression,
    pub body: Items<Statement>,
}

/// `local = "loaded"` in a load statement. Where no local name is written it is the loaded one, at the string's
/// position.
#[derive(Drop)]
pub struct LoadedName {
    pub local: Name,
    pub loaded: Literal,
}

/// The tree of a file.
pub struct Tree {
    pub statements: Items<Statement>,
}

impl Drop for Tree {
    fn drop(self) {
        let Tree { statements: _ } = self;
    }
}
