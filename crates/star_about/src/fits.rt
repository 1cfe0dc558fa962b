//! Finds why the arguments of a call do not fit the parameters of a function.

use star_found::about::Misfit;
use star_store::values::Value;
use star_text::Text;
use star_tree::tree::{Name, Parameter};
use std::alloc::{AllocError, Global};

/// A keyword argument.
#[derive(Drop)]
pub(crate) struct Named {
    pub name: Text,
    /// Its value; `None` if it comes from `**`.
    pub value: Option<Value>,
    /// The token of the name, if it is written in the call; `None` if it comes from `**`.
    pub token: Option<usize>,
}

/// The arguments of a call.
#[derive(Drop)]
pub(crate) struct Arguments {
    pub plain: Vec<Value>,
    pub named: Vec<Named>,
}

impl Arguments {
    /// No arguments.
    pub(crate) fn new(alloc: Global) -> Arguments {
        Arguments {
            plain: Vec::new(alloc),
            named: Vec::new(alloc),
        }
    }

    /// The number of arguments.
    pub(crate) fn count(&self) -> usize {
        self.plain.len().saturating_add(self.named.len())
    }

    /// The first keyword argument with this name.
    pub(crate) fn named(&self, name: &str) -> Option<&Named> {
        for named in &self.named {
            if named.name.as_str() == name {
                return Some(named);
            }
        }
        None
    }

    /// The first keyword argument with the name of one before it.
    pub(crate) fn repeated(&self) -> Option<&Named> {
        for (i, named) in self.named.iter().enumerate() {
            let before = self.named.iter().take(i);
            for other in before {
                if other.name.as_str() == named.name.as_str() {
                    return Some(named);
                }
            }
        }
        None
    }

    /// The first keyword argument with a name other than these.
    pub(crate) fn unknown(&self, names: &[&str]) -> Option<&Named> {
        for named in &self.named {
            if !names.iter().any(|name| *name == named.name.as_str()) {
                return Some(named);
            }
        }
        None
    }
}

/// The name of a parameter that takes a keyword argument; `None` for one with a star.
fn keyword_of(parameter: &Parameter) -> Option<&Name> {
    match parameter {
        Parameter::Plain(name) | Parameter::Default { name, .. } => Some(name),
        _ => None,
    }
}

/// The names of the parameters that take a keyword argument.
pub(crate) fn keywords_of<'p>(
    alloc: Global,
    parameters: &'p [Parameter],
) -> Result<Vec<&'p str>, AllocError> {
    let mut names = Vec::new(alloc);
    for parameter in parameters {
        if let Some(name) = keyword_of(parameter) {
            names.push(name.text.as_str())?;
        }
    }
    Ok(names)
}

/// The first keyword argument that no parameter takes.
fn extra_keywords<'g>(
    alloc: Global,
    parameters: &[Parameter],
    given: &'g Arguments,
) -> Result<Option<&'g Named>, AllocError> {
    let takes_all = |parameter: &Parameter| matches!(parameter, Parameter::StarStar(_));
    if parameters.iter().any(takes_all) {
        return Ok(None);
    }
    let names = keywords_of(alloc, parameters)?;
    Ok(given.unknown(names.as_slice()))
}

/// The first parameter that gets no value, or two, then with the token of the keyword argument if it is written in the
/// call; else that positional arguments are left over.
fn by_parameters(
    parameters: &[Parameter],
    given: &Arguments,
) -> Result<Option<(Misfit, Option<usize>)>, AllocError> {
    let mut taken: usize = 0;
    let mut most: usize = 0;
    let mut is_by_name = false;
    for parameter in parameters {
        let Some(name) = keyword_of(parameter) else {
            if let Parameter::Star(_) = parameter {
                taken = given.plain.len();
            }
            is_by_name = is_by_name || !matches!(parameter, Parameter::StarStar(_));
            continue;
        };
        let named = given.named(name.text.as_str());
        if !is_by_name {
            most = most.saturating_add(1);
        }
        if !is_by_name && taken < given.plain.len() {
            taken = taken.saturating_add(1);
            if let Some(named) = named {
                return Ok(Some((Misfit::Twice(name.text.share()?), named.token)));
            }
        } else if named.is_none() && matches!(parameter, Parameter::Plain(_)) {
            return Ok(Some((Misfit::Missing(name.text.share()?), None)));
        }
    }
    let given = given.plain.len();
    if taken < given {
        return Ok(Some((Misfit::TooMany { given, most }, None)));
    }
    Ok(None)
}

/// Why the arguments do not fit the parameters, with the token of the keyword at fault if one is known; `None` if no
/// reason is found. An unknown keyword comes first, then a repeated one, then the parameters in order.
pub(crate) fn misfit(
    alloc: Global,
    parameters: &[Parameter],
    given: &Arguments,
) -> Result<Option<(Misfit, Option<usize>)>, AllocError> {
    if let Some(named) = extra_keywords(alloc, parameters, given)? {
        return Ok(Some((Misfit::Unknown(named.name.share()?), named.token)));
    }
    if let Some(named) = given.repeated() {
        return Ok(Some((Misfit::Twice(named.name.share()?), named.token)));
    }
    by_parameters(parameters, given)
}
