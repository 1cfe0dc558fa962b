//! Binding the arguments of a call to the parameters of a definition. Begin at `bound_to`, the last function.

ghost use Rattle.std.specs.Prelude.{◌≡◌, ℕ, IfOk, List, map};
ghost use Rattle.std.specs.List.{list_any};
ghost use Rattle.std.specs.Option.{option_map};
ghost use Rattle.star_meaning.specs.Binding as spec;
ghost use Rattle.star_outline.specs.Names.{same_name};
ghost use Rattle.star_outline.specs.Syntax as form;
ghost use Rattle.star_call.specs.Seen.{has};
ghost use Rattle.star_call.specs.BoundArguments.{all_named};
ghost use Rattle.star_call.specs.Steps.{IsStep, next_default, past_default, progress_of};

use crate::names::{ByName, MAP_ABOVE};
use crate::shares::{BoundArgument, BoundArguments};
use star_meaning::given::{Arguments, KeywordArgument};
use star_store::values::Value;
use star_tree::tree::{Name, Parameter};
use std::alloc::{AllocError, Global};
use std::collections::BTreeMap;
use std::marker::Model;

/// The state of binding between two parameters: whether a star has been passed, so that positional arguments fill no
/// more parameters; the positional arguments that are left; and the defaults that are left.
#[derive(Clone, Copy)]
struct BindingState<'g, 'd> {
    by_name: bool,
    positional: &'g [Value],
    defaults: &'d [Value],
}

/// A parameter's argument, if it gets one, and the state after it.
#[derive(Clone, Copy)]
struct BoundParameter<'t, 'g, 'd> {
    share: Option<(&'t Name, BoundArgument<'g>)>,
    progress: BindingState<'g, 'd>,
}

/// The keyword arguments, and the ones among them that name no parameter.
#[derive(Drop)]
struct Names<'g> {
    all: ByName<'g>,
    left: Vec<&'g KeywordArgument>,
}

/// The keyword of a parameter that takes one.
fn keyword_of<'t>(parameter: &'t Parameter) -> Option<&'t str>
    ensures { option_map (λ n. n.now) result ≡ spec.keyword_of (form.parameter parameter.now) }
{
    match parameter {
        Parameter::Plain(name) | Parameter::Default { name, .. } => Some(name.text.as_str()),
        _ => None,
    }
}

/// Whether a parameter can be given by this name.
fn takes_keyword(parameters: &[Parameter], name: &str) -> bool
    ensures { result ≡ list_any (same_name name.now) (spec.keywords_of parameters.now) }
{
    for parameter in parameters {
        match keyword_of(parameter) {
            Some(own) => {
                if name == own {
                    return true;
                }
            }
            None => {}
        }
    }
    false
}

/// The keywords of the parameters that take one.
fn names_of<'t>(
    alloc: Global,
    parameters: &'t [Parameter],
) -> Result<BTreeMap<&'t str, ()>, AllocError>
    ensures { IfOk result (λ names. (name : List ℕ) → has names name
        ≡ list_any (same_name name) (spec.keywords_of parameters.now)) }
{
    let mut names = BTreeMap::new(alloc);
    for parameter in parameters {
        if let Some(name) = keyword_of(parameter) {
            names.insert(name, ())?;
        }
    }
    Ok(names)
}

/// The keywords of parameters, which are looked up: few by going through the parameters, many by a map.
#[derive(Drop)]
struct OwnNames<'t> {
    parameters: &'t [Parameter],
    names: Option<BTreeMap<&'t str, ()>>,
}

impl<'t> Model for OwnNames<'t> {
    ghost use Rattle.std.specs.Prelude.{ℕ, List};
    ghost use Rattle.star_meaning.specs.Binding.{keywords_of};
    ghost use Rattle.star_call.specs.Found.{AreOwn};

    ghost Value = { List (List ℕ) };

    ghost view = { λ o. keywords_of o.parameters.now };

    ghost invariant = { λ o. AreOwn (keywords_of o.parameters.now) o.names };
}

impl<'t> OwnNames<'t> {
    /// The keywords of these parameters; `names` names will be looked up.
    fn of(
        alloc: Global,
        parameters: &'t [Parameter],
        names: usize,
    ) -> Result<OwnNames<'t>, AllocError>
        ensures { IfOk result (λ own. own ≡ spec.keywords_of parameters.now) }
    {
        if names <= MAP_ABOVE || parameters.len() <= MAP_ABOVE {
            return Ok(OwnNames {
                parameters,
                names: None,
            });
        }
        let names = Some(names_of(alloc, parameters)?);
        Ok(OwnNames { parameters, names })
    }

    /// Whether a name is one of them.
    fn has(&self, name: &str) -> bool
        ensures { result ≡ list_any (same_name name.now) self.now }
    {
        match &self.names {
            Some(names) => names.contains_key(name),
            None => takes_keyword(self.parameters, name),
        }
    }
}

/// The keyword arguments that name no parameter.
fn extra_keywords<'g>(
    alloc: Global,
    parameters: &[Parameter],
    named: &'g [KeywordArgument],
) -> Result<Vec<&'g KeywordArgument>, AllocError>
    ensures { IfOk result (λ v. all_named v.items ≡ spec.extra_keywords parameters.now named.now) }
{
    let own = OwnNames::of(alloc, parameters, named.len())?;
    let mut left = Vec::new(alloc);
    for value in named {
        if !own.has(value.name.as_str()) {
            left.push(value)?;
        }
    }
    Ok(left)
}

/// Whether there is a parameter `**name`, so that keyword arguments that name no parameter are taken.
fn take_names(parameters: &[Parameter]) -> bool
    ensures { result ≡ list_any (λ p. spec.takes_names (form.parameter p)) parameters.now }
{
    for parameter in parameters {
        if let Parameter::StarStar(_) = parameter {
            return true;
        }
    }
    false
}

impl<'g> Names<'g> {
    /// A share of one value, if there is one.
    fn shared<'t, 'd>(
        &self,
        name: &'t Name,
        progress: BindingState<'g, 'd>,
        value: Option<Value>,
    ) -> Option<BoundParameter<'t, 'g, 'd>>
        ensures { IsStep self.now.left.items result (spec.shared name.now (progress_of progress.entry) value) }
    {
        match value {
            Some(value) => Some(BoundParameter {
                share: Some((name, BoundArgument::One(value))),
                progress,
            }),
            None => None,
        }
    }

    /// The argument of a parameter that takes one value: the next positional one, which must not be given by keyword
    /// too; else the keyword argument; else the default.
    fn argument_by<'t, 'd>(
        &self,
        name: &'t Name,
        default: Option<Value>,
        progress: BindingState<'g, 'd>,
    ) -> Option<BoundParameter<'t, 'g, 'd>>
        ensures { IsStep self.now.left.items result
            (spec.argument_by name.now self.now.all default (progress_of progress.entry)) }
    {
        let own = name.text.as_str();
        match progress.positional {
            [first, rest @ ..] if !progress.by_name => {
                if self.all.has(own) {
                    return None;
                }
                let progress = BindingState {
                    positional: rest,
                    ..progress
                };
                self.shared(name, progress, Some(*first))
            }
            _ => self.shared(name, progress, self.all.value(own).or(default)),
        }
    }

    /// A parameter's argument, and the state after it; `None` if the arguments do not fit.
    fn step<'t, 'd>(
        &self,
        parameter: &'t Parameter,
        progress: BindingState<'g, 'd>,
    ) -> Option<BoundParameter<'t, 'g, 'd>>
        ensures { IsStep self.now.left.items result
            (spec.step self.now.all (all_named self.now.left.items) (progress_of progress.entry)
            (form.parameter parameter.now)) }
    {
        match parameter {
            Parameter::Plain(name) => self.argument_by(name, None, progress),
            Parameter::Default { name, .. } => self.argument_or_default(name, progress),
            Parameter::Star(name) => Some(BoundParameter {
                share: Some((name, BoundArgument::Rest(progress.positional))),
                progress: BindingState {
                    by_name: true,
                    positional: &[],
                    defaults: progress.defaults,
                },
            }),
            Parameter::BareStar => Some(BoundParameter {
                share: None,
                progress: BindingState {
                    by_name: true,
                    ..progress
                },
            }),
            Parameter::StarStar(name) => Some(BoundParameter {
                share: Some((name, BoundArgument::Names)),
                progress,
            }),
        }
    }

    /// The share of a parameter with a default, which is taken off the defaults that are left.
    fn argument_or_default<'t, 'd>(
        &self,
        name: &'t Name,
        progress: BindingState<'g, 'd>,
    ) -> Option<BoundParameter<'t, 'g, 'd>>
        ensures { IsStep self.now.left.items result
            (spec.argument_by name.now self.now.all (next_default progress.entry) (past_default progress.entry)) }
    {
        match progress.defaults {
            [] => self.argument_by(name, None, progress),
            [first, rest @ ..] => {
                let progress = BindingState {
                    defaults: rest,
                    ..progress
                };
                self.argument_by(name, Some(*first), progress)
            }
        }
    }

    /// The arguments of parameters in order; `None` if they do not fit. In the end no positional argument may be left.
    fn shares<'t, 'd>(
        self,
        alloc: Global,
        parameters: &'t [Parameter],
        progress: BindingState<'g, 'd>,
    ) -> Result<Option<BoundArguments<'t, 'g>>, AllocError>
        ensures { IfOk result (λ shares. shares ≡ spec.shares self.entry.all (all_named self.entry.left.items)
            parameters.now (progress_of progress.entry)) }
    {
        let mut progress = progress;
        let mut shares = Vec::new(alloc);
        for parameter in parameters {
            let Some(turn) = self.step(parameter, progress) else {
                return Ok(None);
            };
            if let Some(share) = turn.share {
                shares.push(share)?;
            }
            progress = turn.progress;
        }
        if !progress.positional.is_empty() {
            return Ok(None);
        }
        Ok(Some(BoundArguments::new(shares, self.left)))
    }
}

/// Binds the arguments of a call to the parameters of a definition:
///
///     def f(a, b=1, *rest, c, d=2, **names)
///
/// - Positional arguments fill `a` and `b` from the left; those left over go to `*rest`.
/// - A keyword argument fills the parameter of its name, before or after the star; one that names no parameter goes to
///   `**names`.
/// - A parameter that got nothing takes its default. `defaults` are the values for `b` and `d`, in order.
///
/// `None` if a parameter without a default gets nothing, if one gets a positional and a keyword argument, or if an
/// argument is left over without a `*rest` or `**names` for it.
///
/// This way takes every call. Two shorter ways of `star_enter` are proved to give the same. `enter_positional` puts the
/// arguments straight into the frame, if all are positional and all parameters plain names. `bound_of`, for definitions
/// with more than 16 parameters, fills a frame that begins with the defaults. `call_function` of `star_eval` chooses
/// among the three.
#[tactic(auto, unfolding(star_meaning::specs::Binding::bound_to))]
pub fn bound_to<'t, 'g>(
    alloc: Global,
    parameters: &'t [Parameter],
    defaults: &[Value],
    given: &'g Arguments,
) -> Result<Option<BoundArguments<'t, 'g>>, AllocError>
    ensures { IfOk result (λ shares. shares ≡ spec.bound_to parameters.now defaults.now given.now) }
{
    let all = given.named.as_slice();
    let left = extra_keywords(alloc, parameters, all)?;
    if !left.is_empty() && !take_names(parameters) {
        return Ok(None);
    }
    let progress = BindingState {
        by_name: false,
        positional: given.positional.as_slice(),
        defaults,
    };
    let all = ByName::of(alloc, all, parameters.len())?;
    Names { all, left }.shares(alloc, parameters, progress)
}
