//! A call of a built-in function or of a method, and the values that it is given.

ghost use Rattle.star_machine.specs.Refines.{Refines};
ghost use Rattle.star_meaning.specs.Arguments.{no_value, none_or_one, one_or_two, only_one, positional, two, two_or_three};
ghost use Rattle.star_meaning.specs.Run.{and_then};

use crate::fault::EvalError;
use crate::machine::Machine;
use crate::setting::Setting;
use star_meaning::given::Arguments;
use star_store::values::Value;

/// A call of a built-in function or of a method. A method's receiver is beside it.
#[derive(Clone, Copy)]
pub struct Call<'a> {
    /// The setting of the running file.
    pub setting: &'a Setting<'a>,
    /// How deep comparisons and texts may go.
    pub levels: u32,
    /// The line of the call, and of its faults.
    pub line: usize,
    /// The evaluated arguments.
    pub given: &'a Arguments,
}

impl<'a> Call<'a> {
    /// Checks that no value is given. `Args` for any, and for a keyword argument.
    pub fn no_value(&self, machine: &Machine) -> Result<(), EvalError>
        ensures { Refines (and_then (positional self.now.line self.now.given.now machine.now) (no_value self.now.line))
            result machine.now }
    {
        machine.no_value(self.line, machine.positional(self.line, self.given)?)
    }

    /// The one value. `Args` for another number of values and for a keyword argument.
    pub fn only_one(&self, machine: &Machine) -> Result<Value, EvalError>
        ensures { Refines (and_then (positional self.now.line self.now.given.now machine.now) (only_one self.now.line))
            result machine.now }
    {
        machine.only_one(self.line, machine.positional(self.line, self.given)?)
    }

    /// The one value, if there is one. `Args` for more values and for a keyword argument.
    pub fn none_or_one(&self, machine: &Machine) -> Result<Option<Value>, EvalError>
        ensures { Refines (and_then (positional self.now.line self.now.given.now machine.now)
            (none_or_one self.now.line)) result machine.now }
    {
        machine.none_or_one(self.line, machine.positional(self.line, self.given)?)
    }

    /// One value, and the second, if there is one. `Args` for another number of values and for a keyword argument.
    pub fn one_or_two(&self, machine: &Machine) -> Result<(Value, Option<Value>), EvalError>
        ensures { Refines (and_then (positional self.now.line self.now.given.now machine.now)
            (one_or_two self.now.line)) result machine.now }
    {
        machine.one_or_two(self.line, machine.positional(self.line, self.given)?)
    }

    /// Two values. `Args` for another number of values and for a keyword argument.
    pub fn two(&self, machine: &Machine) -> Result<(Value, Value), EvalError>
        ensures { Refines (and_then (positional self.now.line self.now.given.now machine.now) (two self.now.line))
            result machine.now }
    {
        machine.two(self.line, machine.positional(self.line, self.given)?)
    }

    /// Two values, and the third, if there is one. `Args` for another number of values and for a keyword argument.
    pub fn two_or_three(
        &self,
        machine: &Machine,
    ) -> Result<(Value, Value, Option<Value>), EvalError>
        ensures { Refines (and_then (positional self.now.line self.now.given.now machine.now)
            (two_or_three self.now.line)) result machine.now }
    {
        machine.two_or_three(self.line, machine.positional(self.line, self.given)?)
    }
}
