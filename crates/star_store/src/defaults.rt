//! The defaults of a function.

ghost use Rattle.std.specs.Prelude.{◌≡◌, List, length, slice_get, IfOk};
ghost use Rattle.star_store.specs.Defaults.{shared_row};
ghost use Rattle.star_store.specs.declared.values.Value.{Value as AnyValue};

use crate::values::Value;
use std::alloc::AllocError;
use std::marker::Model;
use std::sync::ArcSlice;

/// The values of a function's defaults, which the function shares with its frames.
pub struct Defaults {
    values: Option<ArcSlice<Value>>,
}

impl Drop for Defaults {
    fn drop(self) {
        let Defaults { values: _ } = self;
    }
}

impl Model for Defaults {
    ghost Value = { List AnyValue };

    ghost view = { λ d. shared_row d.values };
}

impl Defaults {
    /// These values. No value takes no memory.
    pub fn new(values: Vec<Value>) -> Result<Defaults, AllocError>
        ensures { IfOk result (λ defaults. defaults ≡ values.items) }
    {
        if values.is_empty() {
            return Ok(Defaults { values: None });
        }
        Ok(Defaults {
            values: Some(ArcSlice::from_vec(values)?),
        })
    }

    /// The values.
    pub fn as_slice(&self) -> &[Value]
        ensures { result.now ≡ self.now }
    {
        match &self.values {
            Some(values) => values.as_slice(),
            None => &[],
        }
    }

    /// How many they are.
    pub fn len(&self) -> usize
        ensures { result ≡ length self.now }
    {
        self.as_slice().len()
    }

    /// The value at a place.
    pub fn get(&self, at: usize) -> Option<Value>
        ensures { result ≡ slice_get self.now at }
    {
        self.as_slice().get(at).copied()
    }

    /// The same values, shared and not copied.
    pub fn share(&self) -> Result<Defaults, AllocError>
        ensures { IfOk result (λ shared. shared ≡ self.now) }
    {
        let values = match &self.values {
            Some(values) => Some(values.clone()?),
            None => None,
        };
        Ok(Defaults { values })
    }
}
