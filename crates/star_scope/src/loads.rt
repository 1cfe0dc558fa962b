//! The load statements of a file: the files that their module strings lead to, and the faults of such statements.

ghost use Rattle.std.specs.Prelude.{◌≡◌, ◌<◌, ◌++◌, length, true, IfOk, IfErr, OnOk};
ghost use Rattle.star_label.specs.Label.{is_package};
ghost use Rattle.star_scope.specs.declared.error.ScopeFault.TheVariants.{Memory};
ghost use Rattle.star_scope.specs.Faults.{at, first_from};
ghost use Rattle.star_scope.specs.Loads.{AddsTo, IsLoads, LeadsTo, is_private, load_at, module_fault, prelude_loads, private_fault, written_in};
ghost use Rattle.std.specs.List.{flat_map};

use crate::error::{LocatedFault, ScopeFault, earlier};
use star_label::error::LabelError;
use star_label::files::Files;
use star_label::label::Label;
use star_tree::tree::{Form, LoadedName, Position, Statement};
use std::alloc::{AllocError, Global};

/// The target of a module string.
#[derive(Clone, Copy, Debug, PartialEq, Eq)]
pub enum LoadTarget {
    /// The file with this number.
    File(usize),
    /// The string is a label, and no file has it.
    NoFile,
    /// The string is not a label.
    BadLabel,
}

/// A load of a file: by a statement of the file itself, or of the prelude, which needs no statement.
#[derive(Clone, Copy, Debug, PartialEq, Eq)]
pub struct Load {
    /// The number of the file that it loads.
    pub file: usize,
    /// The line of the statement; 1 for the prelude.
    pub line: usize,
    /// The number of the statement's first token; `None` for the prelude.
    pub token: Option<usize>,
}

/// The loads of a file, and the first fault of its load statements.
#[derive(Debug, Drop)]
pub struct Loads {
    /// The loads that lead to a file, in source order.
    pub loads: Vec<Load>,
    pub first: Option<LocatedFault>,
}

/// The target of a module string in a file of this package.
fn lead_of(
    alloc: Global,
    files: &Files,
    package: &str,
    text: &str,
) -> Result<LoadTarget, ScopeFault>
    requires { is_package «package».now ≡ true }
    ensures leads { IfOk result (λ l. LeadsTo files.now «package».now text.now l) }
    ensures memory { IfErr result (λ e. e ≡ Memory) }
{
    match Label::read(alloc, text, package) {
        Ok(label) => {
            match files.find(&label) {
                Some(n) => Ok(LoadTarget::File(n)),
                None => Ok(LoadTarget::NoFile),
            }
        }
        Err(LabelError::BadLabel) => Ok(LoadTarget::BadLabel),
        Err(_) => Err(ScopeFault::Memory),
    }
}

/// Whether a name begins with `_`.
pub(crate) fn is_private(text: &str) -> bool
    ensures { result ≡ is_private text.now }
{
    match text.as_bytes() {
        [first, ..] => *first == b'_',
        _ => false,
    }
}

/// The fault found so far, or the fault of a module string if it comes first.
#[tactic(auto, unfolding(crate::specs::Faults::first_from))]
fn module_fault(
    found: Option<LocatedFault>,
    position: Position,
    lead: LoadTarget,
) -> Option<LocatedFault>
    ensures { result ≡ first_from found (module_fault position lead) }
{
    let fault = match lead {
        LoadTarget::File(_) => return found,
        LoadTarget::NoFile => ScopeFault::NoFile {
            line: position.line,
        },
        LoadTarget::BadLabel => ScopeFault::BadLabel {
            line: position.line,
        },
    };
    earlier(
        found,
        LocatedFault {
            token: position.token,
            fault,
        },
    )
}

/// The fault found so far, or `Private` for a loaded name if that comes first.
#[tactic(auto, unfolding(crate::specs::Faults::first_from))]
fn private_fault(found: Option<LocatedFault>, name: &LoadedName) -> Option<LocatedFault>
    ensures { result ≡ first_from found (private_fault name.now) }
{
    if !is_private(name.loaded.text.as_str()) {
        return found;
    }
    earlier(
        found,
        LocatedFault {
            token: name.loaded.position.token,
            fault: ScopeFault::Private {
                line: name.loaded.position.line,
            },
        },
    )
}

/// The fault found so far, or the first private name among loaded names if it comes first.
fn private_faults(mut found: Option<LocatedFault>, names: &[LoadedName]) -> Option<LocatedFault>
    ensures { result ≡ first_from found (flat_map private_fault names.now) }
{
    for name in names {
        found = private_fault(found, name);
    }
    found
}

/// Adds the load of a statement after the others, if its module string leads to a file.
fn push_load(loads: &mut Vec<Load>, position: Position, lead: LoadTarget) -> Result<(), AllocError>
    ensures { OnOk result (loads.new.items ≡ loads.old.items ++ load_at position lead) }
{
    if let LoadTarget::File(file) = lead {
        loads.push(Load {
            file,
            line: position.line,
            token: Some(position.token),
        })?;
    }
    Ok(())
}

/// Adds the load of a statement, and its faults.
fn add_statement(
    alloc: Global,
    files: &Files,
    package: &str,
    loads: &mut Loads,
    statement: &Statement,
) -> Result<(), ScopeFault>
    requires { is_package «package».now ≡ true }
    ensures adds { OnOk result (AddsTo files.now «package».now (written_in statement.now) loads.old loads.new) }
    ensures memory { IfErr result (λ e. e ≡ Memory) }
{
    match &statement.form {
        Form::Load {
            module: module_string,
            names,
        } => {
            let lead = lead_of(alloc, files, package, module_string.text.as_str())?;
            let found = module_fault(loads.first, module_string.position, lead);
            loads.first = private_faults(found, names.as_slice());
            push_load(&mut loads.loads, statement.position, lead)?;
            Ok(())
        }
        _ => Ok(()),
    }
}

/// The load of the prelude, if there is one.
fn prelude_loads(alloc: Global, prelude: Option<usize>) -> Result<Vec<Load>, AllocError>
    ensures { IfOk result (λ loads. loads.items ≡ prelude_loads prelude) }
{
    let mut loads = Vec::new(alloc);
    if let Some(file) = prelude {
        loads.push(Load {
            file,
            line: 1,
            token: None,
        })?;
    }
    Ok(loads)
}

/// The loads of the file `n` with these statements, the load of the prelude first, if there is one. Also the first
/// fault of its load statements: `BadLabel` and `NoFile` at the module string, `Private` at a loaded name that begins
/// with `_` (`docs/LANGUAGE.md`, "Scopes and static faults"). `Memory` if an allocation fails, and no other error.
pub fn find_loads(
    alloc: Global,
    files: &Files,
    n: usize,
    prelude: Option<usize>,
    statements: &[Statement],
) -> Result<Loads, ScopeFault>
    requires { n < length files.now }
    ensures loads { IfOk result (λ found. IsLoads files.now n prelude statements.now found.loads.items found.first) }
    ensures memory { IfErr result (λ e. e ≡ Memory) }
{
    let package = files.label(n).package();
    let mut loads = Loads {
        loads: prelude_loads(alloc, prelude)?,
        first: None,
    };
    for statement in statements {
        add_statement(alloc, files, package, &mut loads, statement)?;
    }
    Ok(loads)
}
