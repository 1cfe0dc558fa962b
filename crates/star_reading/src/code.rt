//! `StaticFault`: a static fault with its code and line, and the words of the report for all codes.

ghost use Rattle.std.specs.Prelude.{◌≡◌, ◌≢◌, MatchOption};
ghost use Rattle.star_lex.specs.declared.token.SyntaxFault.TheVariants as text;
ghost use Rattle.star_scope.specs.declared.error.ScopeFault.TheVariants as names;
ghost use Rattle.star_plan.specs.Plan.{OfText, OfNames};
ghost use Rattle.star_plan.specs.Text.{code_word, static_line};
ghost use Rattle.star_reading.specs.Codes.{fault_of, word_of};

use star_lex::token::SyntaxFault;
use star_meaning::fault::FaultCode;
use star_scope::error::ScopeFault;

/// The kinds of static faults: why a file is not run.
#[derive(Clone, Copy, Debug, PartialEq, Eq)]
pub enum StaticFaultCode {
    BadToken,
    BadIndent,
    Nested,
    Syntax,
    Undefined,
    BadPlace,
    Conflict,
    Private,
    NoFile,
    BadLabel,
}

/// A static fault and its line, which is 0 for bad syntax.
#[derive(Clone, Copy, Debug, PartialEq, Eq)]
pub struct StaticFault {
    pub code: StaticFaultCode,
    pub line: usize,
}

/// The static fault that the parser has found; `None` for want of memory.
pub fn of_syntax(fault: SyntaxFault) -> Option<StaticFault>
    ensures { MatchOption result (fault ≡ text.Memory) (λ f. (fault_of f ≡ OfText fault) × (fault ≢ text.Memory)) }
{
    let (code, line) = match fault {
        SyntaxFault::BadSyntax => (StaticFaultCode::Syntax, 0),
        SyntaxFault::BadToken { line } => (StaticFaultCode::BadToken, line),
        SyntaxFault::BadIndent { line } => (StaticFaultCode::BadIndent, line),
        SyntaxFault::TooNested { line } => (StaticFaultCode::Nested, line),
        SyntaxFault::Memory => return None,
    };
    Some(StaticFault { code, line })
}

/// The static fault that the resolver has found; `None` for want of memory.
pub fn of_scope(fault: ScopeFault) -> Option<StaticFault>
    ensures { MatchOption result (fault ≡ names.Memory) (λ f. (fault_of f ≡ OfNames fault) × (fault ≢ names.Memory)) }
{
    let (code, line) = match fault {
        ScopeFault::Undefined { line } => (StaticFaultCode::Undefined, line),
        ScopeFault::BadPlace { line } => (StaticFaultCode::BadPlace, line),
        ScopeFault::Conflict { line } => (StaticFaultCode::Conflict, line),
        ScopeFault::Private { line } => (StaticFaultCode::Private, line),
        ScopeFault::NoFile { line } => (StaticFaultCode::NoFile, line),
        ScopeFault::BadLabel { line } => (StaticFaultCode::BadLabel, line),
        ScopeFault::Memory => return None,
    };
    Some(StaticFault { code, line })
}

impl StaticFaultCode {
    /// Its word in the report.
    pub fn text(self) -> &'static str
        ensures { result.now ≡ word_of self }
    {
        match self {
            StaticFaultCode::BadToken => "bad_token",
            StaticFaultCode::BadIndent => "bad_indent",
            StaticFaultCode::Nested => "nested",
            StaticFaultCode::Syntax => "syntax",
            StaticFaultCode::Undefined => "undefined",
            StaticFaultCode::BadPlace => "bad_place",
            StaticFaultCode::Conflict => "conflict",
            StaticFaultCode::Private => "private",
            StaticFaultCode::NoFile => "no_file",
            StaticFaultCode::BadLabel => "bad_label",
        }
    }
}

impl StaticFault {
    /// Its line in the report.
    pub fn shown_line(self) -> usize
        ensures { result ≡ static_line (fault_of self) }
    {
        match self.code {
            StaticFaultCode::Syntax => 0,
            _ => self.line,
        }
    }
}

/// The word of a fault in the report.
pub fn code_text(code: FaultCode) -> &'static str
    ensures { result.now ≡ code_word code }
{
    match code {
        FaultCode::Frozen => "frozen",
        FaultCode::Iterating => "iterating",
        FaultCode::BadType => "type",
        FaultCode::Index => "index",
        FaultCode::Key => "key",
        FaultCode::Overflow => "overflow",
        FaultCode::Unbound => "unbound",
        FaultCode::Recursion => "recursion",
        FaultCode::Args => "args",
        FaultCode::Zero => "zero",
        FaultCode::Fail => "fail",
        FaultCode::NoName => "no_name",
        FaultCode::Steps => "steps",
        FaultCode::Deep => "deep",
        FaultCode::Cut => "cut",
        FaultCode::BadValue => "value",
    }
}
