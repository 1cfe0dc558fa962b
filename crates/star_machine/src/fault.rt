//! `EvalError`: why a run stops, by a fault of the language or for want of memory.

ghost use Rattle.std.specs.Prelude.{◌≡◌};
ghost use Rattle.star_store.specs.declared.fault.StoreFault.TheVariants as refused;
ghost use Rattle.star_machine.specs.declared.fault.EvalError.TheVariants.{Memory};
ghost use Rattle.star_machine.specs.Refines.{stop_of};

use star_meaning::fault::FaultCode;
use star_store::fault::StoreFault;
use std::alloc::{AllocError, AllocFailed};

/// Why an evaluation stops: the run has a fault, or a growth was refused.
#[derive(Clone, Copy, Debug, PartialEq, Eq, Drop)]
pub enum EvalError {
    /// A growth was refused.
    Memory,
    /// The run has a fault of this kind at this line.
    Faulted { code: FaultCode, line: usize },
}

/// A fault at a line.
pub fn fault_at(code: FaultCode, line: usize) -> EvalError
    ensures { result ≡ EvalError.Faulted code line }
{
    EvalError::Faulted { code, line }
}

/// Converts a refusal of the store into the reason why the evaluation stops.
pub fn refused(fault: StoreFault, line: usize) -> EvalError
    ensures { result ≡ stop_of line fault }
{
    let code = match fault {
        StoreFault::Frozen => FaultCode::Frozen,
        StoreFault::Iterating => FaultCode::Iterating,
        StoreFault::BadType => FaultCode::BadType,
        StoreFault::Index => FaultCode::Index,
        StoreFault::Key => FaultCode::Key,
        StoreFault::Overflow => FaultCode::Overflow,
        StoreFault::Steps => FaultCode::Steps,
        StoreFault::Deep => FaultCode::Deep,
        StoreFault::Memory => return EvalError::Memory,
    };
    fault_at(code, line)
}

impl From<AllocError> for EvalError {
    ghost from_gives = { λ _ e. e ≡ Memory };

    fn from(_error: AllocError) -> EvalError {
        EvalError::Memory
    }
}

impl<T: Drop> From<AllocFailed<T>> for EvalError {
    ghost from_gives = { λ _ e. e ≡ Memory };

    fn from(_error: AllocFailed<T>) -> EvalError {
        EvalError::Memory
    }
}
