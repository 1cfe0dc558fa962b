//! The outline of a file: its definitions, and its blocks with the names that they bind.

ghost use Rattle.std.specs.Prelude.{◌≡◌, ◌∷◌, ◌++◌, [], map, ◌+◌, OnOk};
ghost use Rattle.std.specs.Option.{option_map};
ghost use Rattle.star_outline.specs.Names.{with_names};
ghost use Rattle.star_outline.specs.Syntax.{form_of, position_of};
ghost use Rattle.star_outline.specs.Definitions.{AllDiffer, Answer, body_of, definition_in, definition_of};
ghost use Rattle.star_outline.specs.Outlines.{and, body_names, comprehension, definition, in_argument, in_arm, in_arms, in_clause, in_clauses, in_each, in_entry, in_expression, in_expressions, in_form, in_parameter, in_optional, in_parameters, in_statement, in_statements, in_target, own_definition};

use crate::blocks::{BlockNames, Blocks};
use crate::index::Index;
use crate::names::{add_clauses, add_parameters, add_statements};
use sqlite_items::Boxed;
use star_tree::tree::{
    Argument, Arm, Clause, Clauses, Entry, Expression, Form, Parameter, Statement, Target,
};
use std::alloc::{AllocError, Global};
use std::marker::Model;

/// The body of a definition.
#[derive(Clone, Copy)]
pub enum Body<'t> {
    /// The statements of a `def`.
    Statements(&'t [Statement]),
    /// The expression of a `lambda`.
    Answer(&'t Expression),
}

/// A `def` or a `lambda`. Its number is the number of its first token.
#[derive(Clone, Copy)]
pub struct Definition<'t> {
    pub number: usize,
    pub parameters: &'t [Parameter],
    pub body: Body<'t>,
}

/// The definitions of a file. No two have one number.
pub struct Definitions<'t> {
    definitions: Vec<Definition<'t>>,
    index: Index,
}

impl Drop for Definitions<'_> {
    fn drop(self) {
        let Definitions {
            definitions: _,
            index: _,
        } = self;
    }
}

impl<'t> Model for Definitions<'t> {
    ghost use Rattle.std.specs.Prelude.{List, map};
    ghost use Rattle.star_outline.specs.Definitions.{AllDiffer, Definition as OneDefinition, definition_of};
    ghost use Rattle.star_outline.specs.Index.{Finds};
    ghost use Rattle.star_tree.specs.contracts.tree.Expression as expression;
    ghost use Rattle.star_tree.specs.contracts.tree.Parameter as parameter;
    ghost use Rattle.star_tree.specs.contracts.tree.Statement as statement;
    ghost use Rattle.std.specs.Coded.{codes};

    ghost Value = { List OneDefinition };

    ghost coded = { Prim.hlevel (codes, expression.the_row.coded, parameter.the_row.coded, statement.the_row.coded) };

    ghost view = { λ d. map definition_of d.definitions.items };

    ghost invariant = { λ d. Finds (λ x. x.number) d.definitions.items d.index
        × AllDiffer (map (λ x. x.number) d.definitions.items) };
}

impl<'t> Definitions<'t> {
    pub fn new(alloc: Global) -> Definitions<'t>
        ensures { result ≡ [] }
    {
        Definitions {
            definitions: Vec::new(alloc),
            index: Index::new(alloc),
        }
    }

    /// All definitions.
    pub fn as_slice(&self) -> &[Definition<'t>]
        ensures items { map definition_of result.now ≡ self.now }
        ensures differ { AllDiffer (map (λ d. d.number) self.now) }
    {
        self.definitions.as_slice()
    }

    /// The definition with this number, in constant time; `None` if no definition has it.
    pub fn get(&self, number: usize) -> Option<Definition<'t>>
        ensures { option_map definition_of result ≡ definition_in self.now number }
    {
        match self.index.get(number) {
            Some(place) => Some(self.definitions[place]),
            None => None,
        }
    }

    /// Adds a definition. A number that another definition has is refused with `AllocError`. Only a tree that was made
    /// by hand has such a number twice, since each definition of a text begins at a token of its own.
    fn push(
        &mut self,
        number: usize,
        parameters: &'t [Parameter],
        body: Body<'t>,
    ) -> Result<(), AllocError>
        ensures { OnOk result (self.new ≡ self.old
            ++ record { number = number; parameters = parameters.now; body = body_of body.entry } ∷ []) }
    {
        if self.index.get(number).is_some() {
            return Err(AllocError);
        }
        let place = self.definitions.len();
        self.definitions.push(Definition {
            number,
            parameters,
            body,
        })?;
        match self.index.put(number, place) {
            Ok(()) => Ok(()),
            Err(error) => {
                self.definitions.truncate(place);
                Err(error)
            }
        }
    }
}

/// The definitions and the blocks of a part of a file, each kind in the order of their first tokens.
#[derive(Drop)]
pub struct Found<'t> {
    pub definitions: Definitions<'t>,
    pub blocks: Blocks<'t>,
}

fn add_body<'t>(names: &mut BlockNames<'t>, body: Body<'t>) -> Result<(), AllocError>
    ensures { OnOk result (names.new ≡ with_names names.old (body_names (body_of body.entry))) }
{
    match body {
        Body::Statements(statements) => add_statements(names, statements),
        Body::Answer(_) => Ok(()),
    }
}

/// Adds a definition, and the block of its frame.
fn add_definition<'t>(
    alloc: Global,
    found: &mut Found<'t>,
    token: usize,
    parameters: &'t [Parameter],
    body: Body<'t>,
) -> Result<(), AllocError>
    ensures { OnOk result (found.new ≡ and found.old (definition token parameters.now (body_of body.entry))) }
{
    let mut names = BlockNames::new(alloc);
    add_parameters(&mut names, parameters)?;
    add_body(&mut names, body)?;
    found.definitions.push(token, parameters, body)?;
    found.blocks.push_at(token, names)?;
    Ok(())
}

/// Adds the block of a comprehension.
fn add_comprehension<'t>(
    alloc: Global,
    found: &mut Found<'t>,
    token: usize,
    clauses: &'t Clauses,
) -> Result<(), AllocError>
    ensures { OnOk result (found.new ≡ and found.old (comprehension token clauses.now)) }
{
    let mut names = BlockNames::new(alloc);
    add_clauses(&mut names, clauses)?;
    found.blocks.push_at(token, names)?;
    Ok(())
}

/// The outline of an expression: its definitions and blocks, each before those inside it.
#[cycle(expressions)]
#[tactic(auto, using(crate::proofs::OutlineLevels::and_nothing, crate::proofs::OutlineLevels::expression_opened))]
fn find_in_expression<'t>(
    alloc: Global,
    found: &mut Found<'t>,
    expression: &'t Expression,
) -> Result<(), AllocError>
    ensures { OnOk result (found.new ≡ and found.old (in_expression expression.now)) }
{
    match expression {
        Expression::Name(_) | Expression::Int(_) | Expression::Text(_) => {}
        Expression::Tuple(parts) | Expression::List(parts) => find_in_expressions(
            alloc,
            found,
            parts.as_slice(),
        )?,
        Expression::Dict(entries) => find_in_entries(alloc, found, entries.as_slice())?,
        Expression::ListComprehension {
            position,
            element,
            clauses,
        } => {
            add_comprehension(alloc, found, position.token, clauses.get())?;
            find_in_expression(alloc, found, element.get())?;
            find_in_clauses(alloc, found, clauses.get())?;
        }
        Expression::DictComprehension {
            position,
            entry,
            clauses,
        } => {
            add_comprehension(alloc, found, position.token, clauses.get())?;
            find_in_entry(alloc, found, entry.get())?;
            find_in_clauses(alloc, found, clauses.get())?;
        }
        Expression::Unary { operand: value, .. } | Expression::Attribute { value, .. } =>
            find_in_expression(alloc, found, value.get())?,
        Expression::Binary { left, right, .. }
        | Expression::Compare { left, right, .. }
        | Expression::And { left, right }
        | Expression::Or { left, right }
        | Expression::Index {
            value: left,
            index: right,
        } => {
            find_in_expression(alloc, found, left.get())?;
            find_in_expression(alloc, found, right.get())?;
        }
        Expression::Conditional {
            condition,
            chosen,
            otherwise,
        } => {
            find_in_expression(alloc, found, condition.get())?;
            find_in_expression(alloc, found, chosen.get())?;
            find_in_expression(alloc, found, otherwise.get())?;
        }
        Expression::Lambda {
            position,
            parameters,
            body,
        } => {
            add_definition(
                alloc,
                found,
                position.token,
                parameters.get().as_slice(),
                Body::Answer(body.get()),
            )?;
            find_in_parameters(alloc, found, parameters.get().as_slice())?;
            find_in_expression(alloc, found, body.get())?;
        }
        Expression::Call {
            function,
            arguments,
        } => {
            find_in_expression(alloc, found, function.get())?;
            find_in_arguments(alloc, found, arguments.as_slice())?;
        }
        Expression::Slice {
            value,
            start,
            stop,
            stride,
        } => {
            find_in_expression(alloc, found, value.get())?;
            find_in_optional(alloc, found, start)?;
            find_in_optional(alloc, found, stop)?;
            find_in_optional(alloc, found, stride)?;
        }
    }
    Ok(())
}

#[cycle(expressions)]
fn find_in_expressions<'t>(
    alloc: Global,
    found: &mut Found<'t>,
    expressions: &'t [Expression],
) -> Result<(), AllocError>
    ensures { OnOk result (found.new ≡ and found.old (in_expressions expressions.now)) }
{
    for expression in expressions {
        find_in_expression(alloc, found, expression)?;
    }
    Ok(())
}

#[cycle(expressions)]
#[tactic(auto, using(crate::proofs::OutlineLevels::and_nothing))]
fn find_in_optional<'t>(
    alloc: Global,
    found: &mut Found<'t>,
    expression: &'t Option<Boxed<Expression>>,
) -> Result<(), AllocError>
    ensures { OnOk result (found.new ≡ and found.old (in_optional expression.now)) }
{
    if let Some(expression) = expression {
        find_in_expression(alloc, found, expression.get())?;
    }
    Ok(())
}

#[cycle(expressions)]
#[tactic(auto, using(crate::proofs::OutlineLevels::and_joined, crate::proofs::OutlineLevels::entry_opened))]
fn find_in_entry<'t>(
    alloc: Global,
    found: &mut Found<'t>,
    entry: &'t Entry,
) -> Result<(), AllocError>
    ensures { OnOk result (found.new ≡ and found.old (in_entry entry.now)) }
{
    find_in_expression(alloc, found, &entry.key)?;
    find_in_expression(alloc, found, &entry.value)?;
    Ok(())
}

#[cycle(expressions)]
fn find_in_entries<'t>(
    alloc: Global,
    found: &mut Found<'t>,
    entries: &'t [Entry],
) -> Result<(), AllocError>
    ensures { OnOk result (found.new ≡ and found.old (in_each in_entry entries.now)) }
{
    for entry in entries {
        find_in_entry(alloc, found, entry)?;
    }
    Ok(())
}

#[cycle(expressions)]
fn find_in_argument<'t>(
    alloc: Global,
    found: &mut Found<'t>,
    argument: &'t Argument,
) -> Result<(), AllocError>
    ensures { OnOk result (found.new ≡ and found.old (in_argument argument.now)) }
{
    match argument {
        Argument::Positional(value)
        | Argument::Named { value, .. }
        | Argument::Star(value)
        | Argument::StarStar(value) => find_in_expression(alloc, found, value)?,
    }
    Ok(())
}

#[cycle(expressions)]
fn find_in_arguments<'t>(
    alloc: Global,
    found: &mut Found<'t>,
    arguments: &'t [Argument],
) -> Result<(), AllocError>
    ensures { OnOk result (found.new ≡ and found.old (in_each in_argument arguments.now)) }
{
    for argument in arguments {
        find_in_argument(alloc, found, argument)?;
    }
    Ok(())
}

#[cycle(expressions)]
fn find_in_parameter<'t>(
    alloc: Global,
    found: &mut Found<'t>,
    parameter: &'t Parameter,
) -> Result<(), AllocError>
    ensures { OnOk result (found.new ≡ and found.old (in_parameter parameter.now)) }
{
    if let Parameter::Default { default, .. } = parameter {
        find_in_expression(alloc, found, default)?;
    }
    Ok(())
}

#[cycle(expressions)]
fn find_in_parameters<'t>(
    alloc: Global,
    found: &mut Found<'t>,
    parameters: &'t [Parameter],
) -> Result<(), AllocError>
    ensures { OnOk result (found.new ≡ and found.old (in_parameters parameters.now)) }
{
    for parameter in parameters {
        find_in_parameter(alloc, found, parameter)?;
    }
    Ok(())
}

#[cycle(expressions)]
#[tactic(auto, using(crate::proofs::OutlineLevels::and_nothing, crate::proofs::OutlineLevels::target_opened))]
fn find_in_target<'t>(
    alloc: Global,
    found: &mut Found<'t>,
    target: &'t Target,
) -> Result<(), AllocError>
    ensures { OnOk result (found.new ≡ and found.old (in_target target.now)) }
{
    match target {
        Target::Name(_) => {}
        Target::Index { value, index } => {
            find_in_expression(alloc, found, value.get())?;
            find_in_expression(alloc, found, index.get())?;
        }
        Target::Tuple(targets) | Target::List(targets) => find_in_targets(
            alloc,
            found,
            targets.as_slice(),
        )?,
    }
    Ok(())
}

#[cycle(expressions)]
fn find_in_targets<'t>(
    alloc: Global,
    found: &mut Found<'t>,
    targets: &'t [Target],
) -> Result<(), AllocError>
    ensures { OnOk result (found.new ≡ and found.old (in_each in_target targets.now)) }
{
    for target in targets {
        find_in_target(alloc, found, target)?;
    }
    Ok(())
}

#[cycle(expressions)]
#[tactic(auto, using(crate::proofs::OutlineLevels::and_joined, crate::proofs::OutlineLevels::clauses_opened))]
fn find_in_clauses<'t>(
    alloc: Global,
    found: &mut Found<'t>,
    clauses: &'t Clauses,
) -> Result<(), AllocError>
    ensures { OnOk result (found.new ≡ and found.old (in_clauses clauses.now)) }
{
    find_in_target(alloc, found, &clauses.target)?;
    find_in_expression(alloc, found, clauses.iterable.get())?;
    find_in_more(alloc, found, clauses.more.as_slice())?;
    Ok(())
}

#[cycle(expressions)]
fn find_in_clause<'t>(
    alloc: Global,
    found: &mut Found<'t>,
    clause: &'t Clause,
) -> Result<(), AllocError>
    ensures { OnOk result (found.new ≡ and found.old (in_clause clause.now)) }
{
    match clause {
        Clause::For { target, iterable } => {
            find_in_target(alloc, found, target)?;
            find_in_expression(alloc, found, iterable)?;
        }
        Clause::If(condition) => find_in_expression(alloc, found, condition)?,
    }
    Ok(())
}

#[cycle(expressions)]
fn find_in_more<'t>(
    alloc: Global,
    found: &mut Found<'t>,
    clauses: &'t [Clause],
) -> Result<(), AllocError>
    ensures { OnOk result (found.new ≡ and found.old (in_each in_clause clauses.now)) }
{
    for clause in clauses {
        find_in_clause(alloc, found, clause)?;
    }
    Ok(())
}

#[tactic(auto, using(crate::proofs::OutlineLevels::and_nothing))]
fn find_in_returned<'t>(
    alloc: Global,
    found: &mut Found<'t>,
    value: &'t Option<Expression>,
) -> Result<(), AllocError>
    ensures { OnOk result (found.new ≡ and found.old (in_optional value.now)) }
{
    if let Some(value) = value {
        find_in_expression(alloc, found, value)?;
    }
    Ok(())
}

/// Adds the definition that a `def` statement is.
fn add_own<'t>(
    alloc: Global,
    found: &mut Found<'t>,
    statement: &'t Statement,
) -> Result<(), AllocError>
    ensures { OnOk result (found.new
        ≡ and found.old (own_definition (position_of statement.now) (form_of statement.now))) }
{
    if let Form::Def {
        parameters,
        body,
        ..
    } = &statement.form
    {
        let token = statement.position.token;
        add_definition(
            alloc,
            found,
            token,
            parameters.as_slice(),
            Body::Statements(body.as_slice()),
        )?;
    }
    Ok(())
}

#[cycle(statements)]
#[tactic(auto, using(crate::proofs::OutlineLevels::and_nothing, crate::proofs::OutlineStatements::form_opened))]
fn find_in_form<'t>(alloc: Global, found: &mut Found<'t>, form: &'t Form) -> Result<(), AllocError>
    ensures { OnOk result (found.new ≡ and found.old (in_form form.now)) }
{
    match form {
        Form::Expression(value) => find_in_expression(alloc, found, value)?,
        Form::Assign { target, value } | Form::Augment { target, value, .. } => {
            find_in_target(alloc, found, target)?;
            find_in_expression(alloc, found, value)?;
        }
        Form::Return(value) => find_in_returned(alloc, found, value)?,
        Form::If { arms, otherwise } => {
            find_in_arms(alloc, found, arms.as_slice())?;
            find_in_statements(alloc, found, otherwise.as_slice())?;
        }
        Form::For {
            target,
            iterable,
            body,
        } => {
            find_in_target(alloc, found, target)?;
            find_in_expression(alloc, found, iterable)?;
            find_in_statements(alloc, found, body.as_slice())?;
        }
        Form::Def {
            parameters,
            body,
            ..
        } => {
            find_in_parameters(alloc, found, parameters.as_slice())?;
            find_in_statements(alloc, found, body.as_slice())?;
        }
        Form::Pass | Form::Break | Form::Continue | Form::Load { .. } => {}
    }
    Ok(())
}

#[cycle(statements)]
fn find_in_statement<'t>(
    alloc: Global,
    found: &mut Found<'t>,
    statement: &'t Statement,
) -> Result<(), AllocError>
    ensures { OnOk result (found.new ≡ and found.old (in_statement statement.now)) }
{
    add_own(alloc, found, statement)?;
    find_in_form(alloc, found, &statement.form)?;
    Ok(())
}

/// The outline of statements: their definitions and blocks, each before those inside it.
#[cycle(statements)]
pub fn find_in_statements<'t>(
    alloc: Global,
    found: &mut Found<'t>,
    statements: &'t [Statement],
) -> Result<(), AllocError>
    ensures { OnOk result (found.new ≡ and found.old (in_statements statements.now)) }
{
    for statement in statements {
        find_in_statement(alloc, found, statement)?;
    }
    Ok(())
}

#[cycle(statements)]
fn find_in_arm<'t>(alloc: Global, found: &mut Found<'t>, arm: &'t Arm) -> Result<(), AllocError>
    ensures { OnOk result (found.new ≡ and found.old (in_arm arm.now)) }
{
    find_in_expression(alloc, found, &arm.condition)?;
    find_in_statements(alloc, found, arm.body.as_slice())?;
    Ok(())
}

#[cycle(statements)]
fn find_in_arms<'t>(alloc: Global, found: &mut Found<'t>, arms: &'t [Arm]) -> Result<(), AllocError>
    ensures { OnOk result (found.new ≡ and found.old (in_arms arms.now)) }
{
    for arm in arms {
        find_in_arm(alloc, found, arm)?;
    }
    Ok(())
}
