//! The productions of the grammar that can contain themselves, by level, and the suffixes of an operand.

use sqlite_items::{Boxed, Items};
use star_tree::tree::{Argument, Expression, Name};

/// A level of expressions, the loosest first: each holds the ones below it.
#[derive(Clone, Copy)]
pub enum Level {
    Test,
    Or,
    Negation,
    Unary,
    Primary,
}

/// A suffix of an operand: `.name`, `(arguments)`, `[index]` or `[start:stop:stride]`.
#[derive(Drop)]
pub enum Suffix {
    Attribute(Name),
    Call(Items<Argument>),
    Index(Boxed<Expression>),
    Slice {
        start: Option<Boxed<Expression>>,
        stop: Option<Boxed<Expression>>,
        stride: Option<Boxed<Expression>>,
    },
}
