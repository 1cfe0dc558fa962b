//! The callee of a call: a function, a built-in function or a bound method; and the binding of its parameters.
//!
//! `Callee::of` gets the function's definition, so it needs no table of programs. A called function is kept as the
//! value that leads to it, so a call copies neither names nor defaults.

ghost use Rattle.std.specs.Prelude.{◌≡◌, IfOk};
ghost use Rattle.std.specs.Option.{option_map};
ghost use Rattle.star_outline.specs.Definitions.{definition_of};
ghost use Rattle.star_meaning.specs.Calls as spec;
ghost use Rattle.star_machine.specs.Refines.{Refines};
ghost use Rattle.star_meaning.specs.Values.{content};
ghost use Rattle.star_call.specs.Callees.{FindsCallee, GivesCallee, HasDefinition, IsDefinitionOf, IsFound, bound_arguments, callee_in, defaults_in, number_in, with_definition};

use crate::binding::bound_to;
use crate::shares::BoundArguments;
use star_machine::content::Content;
use star_machine::fault::{EvalError, fault_at};
use star_machine::machine::Machine;
use star_machine::setting::Setting;
use star_meaning::fault::FaultCode;
use star_meaning::given::Arguments;
use star_outline::outline::Definition;
use star_store::names::{BuiltIn, Method};
use star_store::values::{Cell, Function, Value};

/// A function that is called: the value that leads to it, the file and the number of its definition, its defining
/// frame, and the definition.
#[derive(Clone, Copy)]
pub struct Called<'t> {
    pub value: Value,
    pub file: u32,
    pub number: u32,
    pub frame: Value,
    pub definition: Definition<'t>,
}

/// The callee of a call.
#[derive(Clone, Copy)]
pub enum Callee<'t> {
    AFunction(Called<'t>),
    ABuiltIn(BuiltIn),
    /// A method of a value.
    AMethod(Method, Value),
}

/// The defaults of a function; no defaults for another value.
fn defaults_of<'a>(machine: &'a Machine, setting: &'a Setting<'a>, value: Value) -> &'a [Value]
    ensures { result.now ≡ defaults_in (content setting.now machine.now value) }
{
    match machine.content(setting, value) {
        Content::Held(Cell::Func(function)) => function.get().defaults.as_slice(),
        _ => &[],
    }
}

impl<'t> Called<'t> {
    /// Binds the arguments of a call to the function's parameters. `Args` if a parameter gets no value or two, or an
    /// argument is left over.
    pub fn bind<'g>(
        &self,
        machine: &Machine,
        setting: &Setting,
        line: usize,
        given: &'g Arguments,
    ) -> Result<BoundArguments<'t, 'g>, EvalError>
        ensures { Refines (bound_arguments setting.now line self.now given.now machine.now) result machine.now }
    {
        let defaults = defaults_of(machine, setting, self.value);
        let parameters = self.definition.parameters;
        match bound_to(machine.alloc(), parameters, defaults, given)? {
            Some(shares) => Ok(shares),
            None => Err(fault_at(FaultCode::Args, line)),
        }
    }
}

/// A function that is called, with its definition, if it has one. `Recursion` if the definition is active, `BadType` if
/// there is no definition.
fn function_callee<'t>(
    machine: &Machine,
    line: usize,
    value: Value,
    function: &Function,
    definition: Option<Definition<'t>>,
) -> Result<Callee<'t>, EvalError>
    ensures answer { GivesCallee value function.now
        (with_definition line function.now (option_map definition_of definition.entry) machine.now) result machine.now }
    ensures has { IfOk result (HasDefinition function.now (option_map definition_of definition.entry)) }
{
    if machine.is_active(function) {
        return Err(fault_at(FaultCode::Recursion, line));
    }
    match definition {
        Some(definition) => Ok(Callee::AFunction(Called {
            value,
            file: function.file,
            number: function.definition,
            frame: function.frame,
            definition,
        })),
        None => Err(fault_at(FaultCode::BadType, line)),
    }
}

/// The file and the number of the definition of a function; `None` for another value.
pub fn definition_number(machine: &Machine, setting: &Setting, value: Value) -> Option<(u32, u32)>
    ensures { result ≡ number_in (content setting.now machine.now value) }
{
    match machine.content(setting, value) {
        Content::Held(Cell::Func(function)) => {
            let function = function.get();
            Some((function.file, function.definition))
        }
        _ => None,
    }
}

impl<'t> Callee<'t> {
    /// The callee that a value is, if `definition` is the one that the setting has at its `definition_number`.
    /// `BadType` if it may not be called or has no definition, `Recursion` if its definition is active.
    #[tactic(auto, unfolding(star_meaning::specs::Calls::callee))]
    pub fn of(
        machine: &Machine,
        setting: &Setting,
        line: usize,
        value: Value,
        definition: Option<Definition<'t>>,
    ) -> Result<Callee<'t>, EvalError>
        ensures answer { FindsCallee setting.now
            (callee_in line (option_map definition_of definition.entry) (content setting.now machine.now value)) result
            machine.now }
        ensures found { IsDefinitionOf setting.now machine.now value definition.entry
            → FindsCallee setting.now (spec.callee setting.now line value) result machine.now }
        ensures defined { IsDefinitionOf setting.now machine.now value definition.entry
            → IfOk result (IsFound setting.now) }
    {
        match machine.content(setting, value) {
            Content::BuiltInFunction(function) => {
                if !function.is_function() {
                    return Err(fault_at(FaultCode::BadType, line));
                }
                Ok(Callee::ABuiltIn(function))
            }
            Content::Held(Cell::Func(function)) => function_callee(
                machine,
                line,
                value,
                function.get(),
                definition,
            ),
            Content::Held(Cell::Bound(method, receiver)) => Ok(Callee::AMethod(*method, *receiver)),
            _ => Err(fault_at(FaultCode::BadType, line)),
        }
    }
}
