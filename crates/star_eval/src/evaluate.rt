//! Expressions (`evaluate`) and calls (`call`, with its three ways to bind arguments). The forms of expressions are in
//! `nodes`.
//!
//! Frequent forms come first: `evaluate` is inlined and has names and ints, `evaluate_any`, never inlined, the rest, so
//! leaves do not pay for its large frame. (`execute` and `execute_any` do so for assignments and plain expressions.)
//! Each `match` has one arm for each form, so these functions are longer than others.

ghost use Rattle.std.specs.Prelude.{◌≡◌};
ghost use Rattle.star_machine.specs.Refines.{Refines, RefinesBy};
ghost use Rattle.star_meaning.specs.Calls as calls;
ghost use Rattle.star_meaning.specs.Expressions.{defaults, entry_of, maybe, new_function};
ghost use Rattle.star_meaning.specs.Run.{each};
ghost use Rattle.star_outline.specs.Definitions.{body_of, definition_of};
ghost use Rattle.star_outline.specs.Syntax as form;
ghost use Rattle.star_enter.specs.Positional.{called_positional, called_with, expression_of};
ghost use Rattle.star_enter.specs.Entering.{left};
ghost use Rattle.star_world.specs.World.{semantics};
ghost use Rattle.star_call.specs.Callees.{IsDefined, IsFound};
ghost use Rattle.star_call.specs.EvaluatedArgument as passing;
ghost use Rattle.star_eval.specs.Calling.{GivesBound, calling, calling_plainly, calling_positional, calling_with};
ghost use Rattle.star_eval.specs.Forms.{evaluating};

use crate::comprehensions::{make_dict, make_list};
use crate::execute::execute_each;
use crate::nodes::{
    SliceParts, evaluate_and, evaluate_attribute, evaluate_binary, evaluate_choice,
    evaluate_comparison, evaluate_dict, evaluate_index, evaluate_list, evaluate_or, evaluate_slice,
    evaluate_tuple, evaluate_unary,
};
use crate::orders::{call_by_key, takes_key};
use sqlite_items::{Boxed, Items};
use star_attribute::methods::call_method;
use star_builtin::calls::call_built_in;
use star_call::callee::{Called, Callee};
use star_call::passed::{EvaluatedArgument, given};
use star_call::shares::BoundArguments;
use star_enter::calls::{
    are_positional, callee_of, enter_call, enter_positional, expression_of, fit_positionally,
};
use star_enter::ordered::{Bound, bound_of, enter_bound};
use star_machine::fault::{EvalError, fault_at};
use star_machine::machine::Machine;
use star_meaning::fault::FaultCode;
use star_meaning::given::Arguments;
use star_meaning::site::{Flow, Site};
use star_outline::outline::{Body, Definition};
use star_store::defaults::Defaults;
use star_store::names::BuiltIn;
use star_store::values::{Entries, Value, Values};
use star_tree::tree::{Argument, Entry, Expression, Parameter};
use star_world::construct::{new_closure, new_string};
use star_world::variables::read;
use star_world::world::World;

/// Evaluates an expression. `Deep` if no level is left; a node pays 1 as it begins. Names and ints are evaluated here,
/// in the code of the caller, so that their values are not copied through memory.
#[inline(always)]
#[cycle(run)]
#[tactic(auto, using(star_meaning::proofs::Levels::expr_at, star_meaning::proofs::Levels::expr_at_none))]
pub fn evaluate(
    machine: &mut Machine,
    world: &World,
    levels: u32,
    site: &Site,
    expression: &Expression,
) -> Result<Value, EvalError>
    ensures { Refines ((semantics world.now levels).expr site.now expression.now machine.old) result machine.new }
{
    if levels == 0 {
        return Err(fault_at(FaultCode::Deep, site.line));
    }
    machine.pay_one(site.line)?;
    evaluate_node(machine, world, levels - 1, site, expression)
}

/// Evaluates a node whose parts may open `levels` levels: a name or an int here, all else by `evaluate_any`.
#[inline(always)]
#[cycle(run)]
fn evaluate_node(
    machine: &mut Machine,
    world: &World,
    levels: u32,
    site: &Site,
    expression: &Expression,
) -> Result<Value, EvalError>
    ensures { Refines (evaluating world.now levels site.now (form.expression expression.now) machine.old)
        result machine.new }
{
    match expression {
        Expression::Name(name) => read(machine, world, site, name),
        Expression::Int(int) => Ok(Value::Int(*int)),
        _ => evaluate_any(machine, world, levels, site, expression),
    }
}

/// Evaluates a node of any kind, whose parts may open `levels` levels.
#[inline(never)]
#[cycle(run)]
fn evaluate_any(
    machine: &mut Machine,
    world: &World,
    levels: u32,
    site: &Site,
    expression: &Expression,
) -> Result<Value, EvalError>
    ensures { Refines (evaluating world.now levels site.now (form.expression expression.now) machine.old)
        result machine.new }
{
    match expression {
        Expression::Name(name) => read(machine, world, site, name),
        Expression::Int(int) => Ok(Value::Int(*int)),
        Expression::Text(text) => new_string(machine, site.line, text),
        Expression::Tuple(items) => evaluate_tuple(machine, world, levels, site, items.as_slice()),
        Expression::List(items) => evaluate_list(machine, world, levels, site, items.as_slice()),
        Expression::Dict(entries) => evaluate_dict(
            machine,
            world,
            levels,
            site,
            entries.as_slice(),
        ),
        Expression::ListComprehension {
            position,
            element,
            clauses,
        } => make_list(
            machine,
            world,
            levels,
            site,
            position.token,
            element.get(),
            clauses.get(),
        ),
        Expression::DictComprehension {
            position,
            entry,
            clauses,
        } => make_dict(
            machine,
            world,
            levels,
            site,
            position.token,
            entry.get(),
            clauses.get(),
        ),
        Expression::Unary { operator, operand } => {
            evaluate_unary(machine, world, levels, site, *operator, operand.get())
        }
        Expression::Binary {
            operator,
            left,
            right,
        } => evaluate_binary(
            machine,
            world,
            levels,
            site,
            *operator,
            left.get(),
            right.get(),
        ),
        Expression::Compare {
            comparator,
            left,
            right,
        } => evaluate_comparison(
            machine,
            world,
            levels,
            site,
            *comparator,
            left.get(),
            right.get(),
        ),
        Expression::And { left, right } => {
            evaluate_and(machine, world, levels, site, left.get(), right.get())
        }
        Expression::Or { left, right } => {
            evaluate_or(machine, world, levels, site, left.get(), right.get())
        }
        Expression::Conditional {
            condition,
            chosen,
            otherwise,
        } => evaluate_choice(
            machine,
            world,
            levels,
            site,
            condition.get(),
            chosen.get(),
            otherwise.get(),
        ),
        Expression::Lambda {
            position,
            parameters,
            ..
        } => make_function(
            machine,
            world,
            levels,
            site,
            position.token,
            "lambda",
            parameters.get().as_slice(),
        ),
        Expression::Call {
            function,
            arguments,
        } => call(
            machine,
            world,
            levels,
            site,
            function.get(),
            arguments.as_slice(),
        ),
        Expression::Attribute { value, name } => {
            evaluate_attribute(machine, world, levels, site, value.get(), name)
        }
        Expression::Index { value, index } => {
            evaluate_index(machine, world, levels, site, value.get(), index.get())
        }
        Expression::Slice {
            value,
            start,
            stop,
            stride,
        } => evaluate_slice(
            machine,
            world,
            levels,
            site,
            value.get(),
            SliceParts {
                start,
                stop,
                stride,
            },
        ),
    }
}

/// The values of expressions, one after another.
#[cycle(run)]
pub(crate) fn evaluate_each(
    machine: &mut Machine,
    world: &World,
    levels: u32,
    site: &Site,
    expressions: &[Expression],
) -> Result<Values, EvalError>
    ensures { Refines (each ((semantics world.now levels).expr site.now) expressions.now machine.old)
        result machine.new }
{
    let mut values = Values::new(Vec::with_capacity(machine.alloc(), expressions.len())?);
    for expression in expressions {
        let value = evaluate(machine, world, levels, site, expression)?;
        values.push(value)?;
    }
    Ok(values)
}

/// The value of an expression that may be absent.
#[cycle(run)]
pub(crate) fn evaluate_maybe(
    machine: &mut Machine,
    world: &World,
    levels: u32,
    site: &Site,
    expression: &Option<Boxed<Expression>>,
) -> Result<Option<Value>, EvalError>
    ensures { Refines (maybe (semantics world.now levels) site.now expression.now machine.old) result machine.new }
{
    match expression {
        Some(expression) => {
            let value = evaluate(machine, world, levels, site, expression.get())?;
            Ok(Some(value))
        }
        None => Ok(None),
    }
}

/// The key and the value of an entry.
#[cycle(run)]
pub(crate) fn evaluate_entry(
    machine: &mut Machine,
    world: &World,
    levels: u32,
    site: &Site,
    entry: &Entry,
) -> Result<(Value, Value), EvalError>
    ensures { Refines (entry_of (semantics world.now levels) site.now entry.now machine.old) result machine.new }
{
    let key = evaluate(machine, world, levels, site, &entry.key)?;
    let value = evaluate(machine, world, levels, site, &entry.value)?;
    Ok((key, value))
}

/// The keys and values of entries, one after another.
#[cycle(run)]
pub(crate) fn evaluate_entries(
    machine: &mut Machine,
    world: &World,
    levels: u32,
    site: &Site,
    entries: &[Entry],
) -> Result<Entries, EvalError>
    ensures { Refines (each (entry_of (semantics world.now levels) site.now) entries.now machine.old)
        result machine.new }
{
    let mut found = Entries::with_capacity(machine.alloc(), entries.len())?;
    for entry in entries {
        let (key, value) = evaluate_entry(machine, world, levels, site, entry)?;
        found.push(key, value)?;
    }
    Ok(found)
}

/// The defaults of parameters, one after another.
#[cycle(run)]
fn evaluate_defaults(
    machine: &mut Machine,
    world: &World,
    levels: u32,
    site: &Site,
    parameters: &[Parameter],
) -> Result<Defaults, EvalError>
    ensures { Refines (defaults (semantics world.now levels) site.now parameters.now machine.old) result machine.new }
{
    let mut values = Vec::new(machine.alloc());
    for parameter in parameters {
        if let Parameter::Default { default, .. } = parameter {
            let value = evaluate(machine, world, levels, site, default)?;
            values.push(value)?;
        }
    }
    Ok(Defaults::new(values)?)
}

/// A new function: its defaults in order, then 1.
#[cycle(run)]
pub(crate) fn make_function(
    machine: &mut Machine,
    world: &World,
    levels: u32,
    site: &Site,
    token: usize,
    name: &str,
    parameters: &[Parameter],
) -> Result<Value, EvalError>
    ensures { Refines (new_function (semantics world.now levels) site.now token name.now parameters.now machine.old)
        result machine.new }
{
    let defaults = evaluate_defaults(machine, world, levels, site, parameters)?;
    new_closure(machine, site, token, name, defaults)
}

/// The value of an argument.
#[cycle(run)]
fn pass<'t>(
    machine: &mut Machine,
    world: &World,
    levels: u32,
    site: &Site,
    argument: &'t Argument,
) -> Result<EvaluatedArgument<'t>, EvalError>
    ensures { RefinesBy passing.shown (calls.pass (semantics world.now levels) site.now argument.now machine.old)
        result machine.new }
{
    match argument {
        Argument::Positional(value) => Ok(EvaluatedArgument::Plain(evaluate(
            machine, world, levels, site, value,
        )?)),
        Argument::Named { name, value } => {
            let value = evaluate(machine, world, levels, site, value)?;
            Ok(EvaluatedArgument::Named(name.text.as_str(), value))
        }
        Argument::Star(value) => Ok(EvaluatedArgument::Star(evaluate(
            machine, world, levels, site, value,
        )?)),
        Argument::StarStar(value) => Ok(EvaluatedArgument::StarStar(evaluate(
            machine, world, levels, site, value,
        )?)),
    }
}

/// The values of the expressions of arguments, one after another.
#[cycle(run)]
fn evaluate_arguments(
    machine: &mut Machine,
    world: &World,
    levels: u32,
    site: &Site,
    arguments: &[Argument],
) -> Result<Values, EvalError>
    ensures { Refines (each (λ a. (semantics world.now levels).expr site.now
        (expression_of a)) arguments.now machine.old)
        result machine.new }
{
    let mut values = Values::new(Vec::new(machine.alloc()));
    for argument in arguments {
        let value = evaluate(machine, world, levels, site, expression_of(argument))?;
        values.push(value)?;
    }
    Ok(values)
}

/// The values of arguments, one after another.
#[cycle(run)]
fn pass_each<'t>(
    machine: &mut Machine,
    world: &World,
    levels: u32,
    site: &Site,
    arguments: &'t [Argument],
) -> Result<Vec<EvaluatedArgument<'t>>, EvalError>
    ensures { RefinesBy (λ ps. passing.all_shown ps.items)
        (each (calls.pass (semantics world.now levels) site.now) arguments.now machine.old) result machine.new }
{
    let mut values = Vec::new(machine.alloc());
    for argument in arguments {
        let value = pass(machine, world, levels, site, argument)?;
        values.push(value)?;
    }
    Ok(values)
}

/// A fault leaves a call of the function that this expression names.
#[inline(never)]
fn leave_call(machine: &mut Machine, site: &Site, function: &Expression)
    ensures { machine.new ≡ machine.old }
{
    if let Expression::Name(name) | Expression::Attribute { name, .. } = function {
        machine.leave_call(site.file, name.position.token);
    }
}

/// A call: the callee, the arguments in source order, then the checks in order, then the work.
#[cycle(run)]
fn call(
    machine: &mut Machine,
    world: &World,
    levels: u32,
    site: &Site,
    function: &Expression,
    arguments: &[Argument],
) -> Result<Value, EvalError>
    ensures { Refines (calls.call_node world.now.setting levels (semantics world.now levels) site.now function.now
        arguments.now machine.old) result machine.new }
{
    let value = evaluate(machine, world, levels, site, function)?;
    if are_positional(arguments) {
        return call_positional(machine, world, levels, site, function, value, arguments);
    }
    call_with(machine, world, levels, site, function, value, arguments)
}

/// A call of a value, named by `function`, with positional arguments alone, which need no unpacking. A fault leaves it.
#[cycle(run)]
fn call_positional(
    machine: &mut Machine,
    world: &World,
    levels: u32,
    site: &Site,
    function: &Expression,
    value: Value,
    arguments: &[Argument],
) -> Result<Value, EvalError>
    ensures { Refines (called_positional world.now levels site.now value arguments.now machine.old) result machine.new }
{
    let positional = evaluate_arguments(machine, world, levels, site, arguments)?;
    let callee = callee_of(machine, world, site.line, value)?;
    let given = Arguments {
        positional,
        named: Items::new(machine.alloc()),
    };
    let answer = call_on(machine, world, levels, site, callee, &given);
    if answer.is_err() {
        leave_call(machine, site, function);
    }
    answer
}

/// A call of a value, which a function names, with arguments of any kind. A fault leaves it.
#[cycle(run)]
#[tactic(auto, using(star_enter::proofs::Called::callee_kept))]
fn call_with(
    machine: &mut Machine,
    world: &World,
    levels: u32,
    site: &Site,
    function: &Expression,
    value: Value,
    arguments: &[Argument],
) -> Result<Value, EvalError>
    ensures { Refines (called_with world.now levels site.now value arguments.now machine.old) result machine.new }
{
    let line = site.line;
    let passed = pass_each(machine, world, levels, site, arguments)?;
    let callee = callee_of(machine, world, line, value)?;
    let given = given(machine, world.setting(), line, &passed)?;
    let answer = call_on(machine, world, levels, site, callee, &given);
    if answer.is_err() {
        leave_call(machine, site, function);
    }
    answer
}

/// A call with evaluated arguments: a function's are bound, or `Args`; then it runs, at a level of its own. `sorted`,
/// `max` and `min` may call a function in turn.
#[cycle(run)]
fn call_on(
    machine: &mut Machine,
    world: &World,
    levels: u32,
    site: &Site,
    callee: Callee<'_>,
    given: &Arguments,
) -> Result<Value, EvalError>
    requires { IsFound world.now.setting callee }
    ensures { Refines (calling_with world.now levels site.now callee.entry given.now machine.old) result machine.new }
{
    let line = site.line;
    match callee {
        Callee::AFunction(called) => call_function(machine, world, levels, site, called, given),
        Callee::ABuiltIn(function) => {
            call_built_in_on(machine, world, levels, site, function, given)
        }
        Callee::AMethod(method, receiver) => {
            call_method(
                machine,
                world.setting(),
                levels,
                line,
                method,
                receiver,
                given,
            )
        }
    }
}

/// A call of a built-in function: with `key`, or plainly.
#[cycle(run)]
fn call_built_in_on(
    machine: &mut Machine,
    world: &World,
    levels: u32,
    site: &Site,
    function: BuiltIn,
    given: &Arguments,
) -> Result<Value, EvalError>
    // It is long since it names each argument of the definition.
    ensures { Refines (calls.called_built_in world.now.setting levels (semantics world.now levels) site.now function
        given.now (calls.takes_key world.now.setting.language.dialect given.now) machine.old) result machine.new }
{
    if takes_key(world, given) {
        return call_by_key(machine, world, levels, site, function, given);
    }
    call_built_in(machine, world.setting(), levels, site.line, function, given)
}

/// A plain call with evaluated arguments: a function's are bound, or `Args`; then it runs, at a level of its own.
#[inline(never)]
#[cycle(run)]
pub(crate) fn call_plainly(
    machine: &mut Machine,
    world: &World,
    levels: u32,
    site: &Site,
    callee: Callee<'_>,
    given: &Arguments,
) -> Result<Value, EvalError>
    requires { IsFound world.now.setting callee }
    ensures { Refines (calling_plainly world.now levels site.now callee.entry given.now machine.old) result machine.new }
{
    let line = site.line;
    match callee {
        Callee::AFunction(called) => call_function(machine, world, levels, site, called, given),
        Callee::ABuiltIn(function) => {
            call_built_in(machine, world.setting(), levels, line, function, given)
        }
        Callee::AMethod(method, receiver) => {
            call_method(
                machine,
                world.setting(),
                levels,
                line,
                method,
                receiver,
                given,
            )
        }
    }
}

/// A call of a function: its arguments are bound, or `Args`; then it runs. Where each parameter gets the value at its
/// own place, or the parameters have a layout, they are not bound one by one.
#[inline(always)]
#[cycle(run)]
#[tactic(auto, using(star_enter::proofs::Positional::bound_positional))]
fn call_function(
    machine: &mut Machine,
    world: &World,
    levels: u32,
    site: &Site,
    called: Called<'_>,
    given: &Arguments,
) -> Result<Value, EvalError>
    requires { IsDefined world.now.setting called }
    ensures { Refines (calling_plainly world.now levels site.now (Callee.AFunction called.entry) given.now machine.old)
        result machine.new }
{
    if fit_positionally(called.definition.parameters, given) {
        return run_positional(
            machine,
            world,
            levels,
            site,
            called,
            given.positional.as_slice(),
        );
    }
    if let Some(bound) = bound_of(machine, world, &called, given)? {
        return run_bound(machine, world, levels, site, called, bound);
    }
    let shares = called.bind(machine, world.setting(), site.line, given)?;
    run_function(machine, world, levels, site, called, &shares)
}

/// The run of a function where each parameter gets the value at its own position. `Deep` if no level is left.
#[cycle(run)]
#[tactic(auto, using(star_meaning::proofs::Levels::call_at, star_meaning::proofs::Levels::call_at_none, star_enter::proofs::Positional::run_positional_is))]
fn run_positional(
    machine: &mut Machine,
    world: &World,
    levels: u32,
    site: &Site,
    called: Called<'_>,
    values: &[Value],
) -> Result<Value, EvalError>
    ensures { Refines (calling_positional world.now levels site.now called.entry values.now machine.old)
        result machine.new }
{
    if levels == 0 {
        return Err(fault_at(FaultCode::Deep, site.line));
    }
    let site = enter_positional(machine, world, site.line, called, values)?;
    finish_call(machine, world, levels - 1, &site, called.definition)
}

/// The run of a function whose parameters are bound to these arguments. `Deep` if no level is left.
#[cycle(run)]
#[tactic(auto, using(star_meaning::proofs::Levels::call_at, star_meaning::proofs::Levels::call_at_none, star_enter::proofs::OrderedFrames::run_bound_is))]
fn run_bound(
    machine: &mut Machine,
    world: &World,
    levels: u32,
    site: &Site,
    called: Called<'_>,
    bound: Bound<'_>,
) -> Result<Value, EvalError>
    ensures { GivesBound world.now levels site.now called.entry bound.entry machine.old result machine.new }
{
    if levels == 0 {
        return Err(fault_at(FaultCode::Deep, site.line));
    }
    let site = enter_bound(machine, site.line, called, bound)?;
    finish_call(machine, world, levels - 1, &site, called.definition)
}

/// The run of a function: the values of its parameters, its frame, the parameters in it, its body. `Deep` if no level
/// is left.
#[cycle(run)]
#[tactic(auto, using(star_meaning::proofs::Levels::call_at, star_meaning::proofs::Levels::call_at_none, star_enter::proofs::Entering::run_is))]
fn run_function(
    machine: &mut Machine,
    world: &World,
    levels: u32,
    site: &Site,
    called: Called<'_>,
    shares: &BoundArguments<'_, '_>,
) -> Result<Value, EvalError>
    ensures { Refines (calling world.now levels site.now called.entry shares.now machine.old) result machine.new }
{
    if levels == 0 {
        return Err(fault_at(FaultCode::Deep, site.line));
    }
    let site = enter_call(machine, world, site.line, called, shares)?;
    finish_call(machine, world, levels - 1, &site, called.definition)
}

/// The rest of a call: the body runs, and its definition ceases to be active; or a fault leaves it.
#[cycle(run)]
fn finish_call(
    machine: &mut Machine,
    world: &World,
    levels: u32,
    site: &Site,
    definition: Definition<'_>,
) -> Result<Value, EvalError>
    ensures { Refines (left (semantics world.now levels) (definition_of definition.entry) site.now machine.old)
        result machine.new }
{
    let answer = run_body(machine, world, levels, site, definition.body);
    if answer.is_err() {
        machine.leave_body(site.file, definition.number);
    } else {
        machine.deactivate();
    }
    answer
}

/// The value that a function returns if its statements end so: None without a `return`.
fn answer_of(flow: Flow) -> Value
    ensures { result ≡ calls.answer_of flow }
{
    match flow {
        Flow::Return(value) => value,
        _ => Value::NoneValue,
    }
}

/// The answer of a body: the returned value, or None if the statements end; of a lambda, the value of its expression.
#[cycle(run)]
fn run_body(
    machine: &mut Machine,
    world: &World,
    levels: u32,
    site: &Site,
    body: Body<'_>,
) -> Result<Value, EvalError>
    ensures { Refines (calls.run_body (semantics world.now levels) site.now (body_of body.entry) machine.old)
        result machine.new }
{
    match body {
        Body::Statements(statements) => {
            let flow = execute_each(machine, world, levels, site, statements)?;
            Ok(answer_of(flow))
        }
        Body::Answer(expression) => evaluate(machine, world, levels, site, expression),
    }
}
