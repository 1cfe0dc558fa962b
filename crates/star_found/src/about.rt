//! `Found`: the part of a program that a fault is about, and its place.

use star_text::Text;

/// The type of a value.
#[derive(Clone, Copy, Debug, PartialEq, Eq)]
pub enum Type {
    Nothing,
    Bool,
    Int,
    Text,
    List,
    Tuple,
    Dict,
    Range,
    Function,
    BuiltIn,
    Struct,
    Set,
    Module,
    /// Not a value that a program can have.
    Other,
}

impl Type {
    /// Its name, as `type` has it.
    pub fn name(self) -> &'static str {
        match self {
            Type::Nothing => "NoneType",
            Type::Bool => "bool",
            Type::Int => "int",
            Type::Text => "string",
            Type::List => "list",
            Type::Tuple => "tuple",
            Type::Dict => "dict",
            Type::Range => "range",
            Type::Function => "function",
            Type::BuiltIn => "builtin_function_or_method",
            Type::Struct => "struct",
            Type::Set => "set",
            Type::Module => "module",
            Type::Other => "value",
        }
    }
}

/// A value for a person: its type, and the start of its text. The text is empty if the value is too large or nested too
/// deeply.
#[derive(Debug, Drop)]
pub struct Shown {
    pub of: Type,
    pub text: Text,
}

impl Shown {
    /// The name of its type.
    pub fn type_name(&self) -> &'static str {
        self.of.name()
    }
}

/// Why the arguments of a call do not fit the parameters of a function.
#[derive(Debug, Drop)]
pub enum Misfit {
    /// A keyword argument whose name no parameter has.
    Unknown(Text),
    /// The parameter is given twice.
    Twice(Text),
    /// The parameter is not given, and has no default.
    Missing(Text),
    /// More positional arguments than the function takes.
    TooMany { given: usize, most: usize },
}

/// The part of a program that had no value, with the values of its parts.
#[derive(Debug, Drop)]
pub enum About {
    /// A name that has no value: a global of its file, or a name of a function or a comprehension.
    Name {
        name: Text,
        is_global: bool,
    },
    /// A name that a load statement takes from a module which does not have it.
    Loaded(Text),
    /// `value.name`
    Attribute {
        name: Text,
        value: Shown,
    },
    /// `value[at]`, of a value with `items` items.
    Index {
        value: Shown,
        at: Shown,
        items: usize,
    },
    /// `value[start:stop:stride]`
    Slice {
        value: Shown,
    },
    /// `left sign right`
    Operands {
        sign: Text,
        left: Shown,
        right: Shown,
    },
    /// `sign value`
    Operand {
        sign: Text,
        value: Shown,
    },
    /// A value that a loop was to go over, or that was to be unpacked. If it is an item that a loop took, `of` is the
    /// type of the value that has it.
    Iterable {
        value: Shown,
        of: Option<Type>,
    },
    /// A value with `items` items that was to be unpacked to `targets` targets. If it is an item that a loop took, `of`
    /// is the type of the value that has it.
    Unpacked {
        value: Shown,
        items: usize,
        targets: usize,
        of: Option<Type>,
    },
    /// A field of a format, as `%d` or `{name}`, and the value that it does not take; `None` if it gets no value.
    Field {
        field: Text,
        value: Option<Shown>,
    },
    /// The key of an entry of a dictionary display or comprehension.
    Key {
        key: Shown,
    },
    /// A call of a value, and why the arguments do not fit; `misfit` is `None` if the value cannot be called, or is a
    /// function that is already active.
    Call {
        callee: Shown,
        misfit: Option<Misfit>,
    },
    /// A call of a built-in function, or of a method of a receiver: its name, the first two positional arguments, and
    /// the number of all arguments.
    BuiltIn {
        name: Text,
        receiver: Option<Shown>,
        first: Option<Shown>,
        second: Option<Shown>,
        given: usize,
    },
}

/// A turn on the way from a statement to a part of it. Parts of one kind are counted from 0, as they are written.
#[derive(Clone, Copy, Debug, PartialEq, Eq)]
pub enum Turn {
    /// The expression that is the whole statement.
    Alone,
    /// The value of a `return`.
    Returned,
    /// What stands after the sign of an assignment.
    Assigned,
    /// What stands before the sign of an assignment, or between the `for` and the `in` of a loop.
    Target,
    /// What a loop goes over.
    Iterable,
    /// The condition of an `if` or `elif`.
    Arm(usize),
    /// The default of a parameter.
    Default(usize),
    /// The left operand of a binary operator.
    Left,
    /// The right operand of a binary operator.
    Right,
    /// The operand of a sign that stands before it.
    Operand,
    /// What stands between the `if` and the `else` of a conditional.
    Condition,
    /// What stands before the `if` of a conditional.
    Chosen,
    /// What stands after the `else` of a conditional.
    Otherwise,
    /// The function of a call, without its arguments.
    Function,
    /// The value of an argument.
    Argument(usize),
    /// What stands before a dot or a subscript.
    Owner,
    /// The index of a subscript.
    Index,
    /// A bound of a slice: its start, stop or stride.
    Bound(usize),
    /// An item of a tuple or list, or of targets; the element of a comprehension is its item 0.
    Item(usize),
    /// The key of an entry; that of a comprehension is its key 0.
    Key(usize),
    /// The value of an entry; that of a comprehension is its value 0.
    Value(usize),
    /// What a clause of a comprehension goes over, or the condition that it tests.
    Clause(usize),
    /// The targets of a clause of a comprehension.
    ClauseTarget(usize),
}

/// Where the part of a program is that a fault is about.
#[derive(Debug, Drop)]
pub enum Place {
    /// The word with this token.
    Word(usize),
    /// The part to which these turns lead from the statement that stopped, or from the expression of the lambda that
    /// stopped. A fault about an operator, a subscript or a call is about the last one of this part.
    Part(Vec<Turn>),
}

/// A report on a fault: the part of the program that it is about, and its place.
#[derive(Debug)]
pub struct Found {
    pub about: About,
    pub place: Place,
    /// Names that may have been meant by the word.
    pub names: Vec<Text>,
}

impl Drop for Found {
    fn drop(self) {
        let Found {
            about: _,
            place: _,
            names: _,
        } = self;
    }
}
