//! Unpacks the arguments of a call of a built-in function or a method: none, one, one or two, and so on.
//!
//! The arguments are one type in the code and in the definitions (`Arguments`, `KeywordArgument`). The `Machine`
//! unpacks them, since a fault keeps the machine's lines.

ghost use Rattle.std.specs.Prelude.{◌≡◌};
ghost use Rattle.std.specs.List.{list_all};
ghost use Rattle.star_outline.specs.Names.{same_name};
ghost use Rattle.star_meaning.specs.Arguments as spec;
ghost use Rattle.star_machine.specs.Refines.{Refines, RefinesBy};

use crate::fault::{EvalError, fault_at};
use crate::machine::Machine;
use star_meaning::fault::FaultCode;
use star_meaning::given::{Arguments, KeywordArgument};
use star_store::values::Value;

/// Whether each keyword argument has this name.
fn have_name(named: &[KeywordArgument], name: &str) -> bool
    ensures { result ≡ list_all (λ n. same_name n.name name.now) named.now }
{
    for value in named {
        if value.name.as_str() != name {
            return false;
        }
    }
    true
}

impl Machine {
    /// Positional values alone. `Args` if there is a keyword one.
    pub fn positional<'a>(
        &self,
        line: usize,
        given: &'a Arguments,
    ) -> Result<&'a [Value], EvalError>
        ensures { RefinesBy (λ xs. xs.now) (spec.positional line given.now self.now) result self.now }
    {
        if given.named.len() == 0 {
            return Ok(given.positional.as_slice());
        }
        Err(fault_at(FaultCode::Args, line))
    }

    /// Positional values, and the keyword value of this name, if there is one. `Args` if there is one of another name.
    pub fn with_name<'a>(
        &self,
        line: usize,
        name: &str,
        given: &'a Arguments,
    ) -> Result<(&'a [Value], Option<Value>), EvalError>
        ensures { RefinesBy (λ r. (r.0.now, r.1)) (spec.with_name line name.now given.now self.now) result self.now }
    {
        if !have_name(given.named.as_slice(), name) {
            return Err(fault_at(FaultCode::Args, line));
        }
        let value = match given.named.get(0) {
            Some(named) => Some(named.value),
            None => None,
        };
        Ok((given.positional.as_slice(), value))
    }

    /// The one value. `Args` for none or more.
    pub fn only_one(&self, line: usize, values: &[Value]) -> Result<Value, EvalError>
        ensures { Refines (spec.only_one line values.now self.now) result self.now }
    {
        match values {
            [value] => Ok(*value),
            _ => Err(fault_at(FaultCode::Args, line)),
        }
    }

    /// The one value, if there is one. `Args` for more.
    pub fn none_or_one(&self, line: usize, values: &[Value]) -> Result<Option<Value>, EvalError>
        ensures { Refines (spec.none_or_one line values.now self.now) result self.now }
    {
        match values {
            [] => Ok(None),
            [value] => Ok(Some(*value)),
            _ => Err(fault_at(FaultCode::Args, line)),
        }
    }

    /// One value, and the second, if there is one. `Args` for none or more.
    pub fn one_or_two(
        &self,
        line: usize,
        values: &[Value],
    ) -> Result<(Value, Option<Value>), EvalError>
        ensures { Refines (spec.one_or_two line values.now self.now) result self.now }
    {
        match values {
            [first] => Ok((*first, None)),
            [first, second] => Ok((*first, Some(*second))),
            _ => Err(fault_at(FaultCode::Args, line)),
        }
    }

    /// Two values. `Args` for fewer or more.
    pub fn two(&self, line: usize, values: &[Value]) -> Result<(Value, Value), EvalError>
        ensures { Refines (spec.two line values.now self.now) result self.now }
    {
        match values {
            [first, second] => Ok((*first, *second)),
            _ => Err(fault_at(FaultCode::Args, line)),
        }
    }

    /// Two values, and the third, if there is one. `Args` for fewer or more.
    pub fn two_or_three(
        &self,
        line: usize,
        values: &[Value],
    ) -> Result<(Value, Value, Option<Value>), EvalError>
        ensures { Refines (spec.two_or_three line values.now self.now) result self.now }
    {
        match values {
            [first, second] => Ok((*first, *second, None)),
            [first, second, third] => Ok((*first, *second, Some(*third))),
            _ => Err(fault_at(FaultCode::Args, line)),
        }
    }

    /// No value. `Args` for any.
    pub fn no_value(&self, line: usize, values: &[Value]) -> Result<(), EvalError>
        ensures { Refines (spec.no_value line values.now self.now) result self.now }
    {
        match values {
            [] => Ok(()),
            _ => Err(fault_at(FaultCode::Args, line)),
        }
    }

    /// The name of a value as a key: one that came by `**` is the key there, another one a new string, which is paid.
    #[tactic(auto, unfolding(star_meaning::specs::Arguments::name_key))]
    pub fn key_for(&mut self, line: usize, named: &KeywordArgument) -> Result<Value, EvalError>
        ensures { Refines (spec.key_for line named.now self.old) result self.new }
    {
        match named.key {
            Some(key) => Ok(key),
            None => {
                let name = named.name.share()?;
                self.new_text(line, name)
            }
        }
    }
}
