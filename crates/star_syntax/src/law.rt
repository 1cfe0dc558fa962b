//! Laws of the grammar, true of every text: one reading, and that written expressions read back.

ghost use Rattle.star_syntax.specs.InOrder.{AllWritable, ReadInOrder, ReadIsWritten, TreeInOrder};
ghost use Rattle.star_syntax.specs.Laws.{OneReading};
ghost use Rattle.star_syntax.specs.Written.{ReadsBack};

/// Leaves have one reading at most. (`docs/LANGUAGE.md`, "Grammar".)
pub fn one_reading()
    ensures { OneReading }
{}

/// The leaves of an expression, written with a parenthesis round each part, read back as that expression, if the leaves
/// after it are such as may follow a whole expression. It covers each form of expression: names, ints, strings, the
/// operators, comparisons, `and`, `or`, the conditional, `lambda`, attributes, calls, indices, slices, tuples, displays
/// and comprehensions. (`docs/LANGUAGE.md`, "Grammar".)
pub fn reads_back()
    ensures { ReadsBack }
{}

/// Each expression whose arguments and parameters are in the order of the rules, at any depth, has such a writing,
/// before any leaves. (`docs/LANGUAGE.md`, "Grammar".)
pub fn all_writable()
    ensures { AllWritable }
{}

/// An expression that is read, at any level of the grammar, has its arguments and parameters in the order of the rules,
/// at any depth. (`docs/LANGUAGE.md`, "Grammar".)
pub fn read_in_order()
    ensures { ReadInOrder }
{}

/// The statements of each reading of a file have them so too, with all of their parts. (`docs/LANGUAGE.md`, "Grammar".)
pub fn tree_in_order()
    ensures { TreeInOrder }
{}

/// Each expression that is read has a writing with a parenthesis round each part, before any leaves that may follow a
/// whole expression, and the writing reads back as that expression. (`docs/LANGUAGE.md`, "Grammar".)
pub fn read_is_written()
    ensures { ReadIsWritten }
{}
