//! What a run says: lines and recorded calls, in their order.

ghost use Rattle.std.specs.Prelude.{◌≡◌, IfOk};

use star_text::Text;
use std::alloc::AllocError;

/// A call of a recorded function: its name, the members `args` and `kwargs` of its JSON, and the line of the running
/// module that a fault there would have.
#[derive(Debug, Drop)]
pub struct RecordedCall {
    pub name: Text,
    pub inputs: Text,
    pub line: usize,
}

/// A printed line, or a recorded call.
#[derive(Debug, Drop)]
pub enum Said {
    Line(Text),
    Call(RecordedCall),
}

impl RecordedCall {
    /// The same call, whose texts are shared. The error: an allocation failed.
    pub fn share(&self) -> Result<RecordedCall, AllocError>
        ensures { IfOk result (λ again. again ≡ self.now) }
    {
        Ok(RecordedCall {
            name: self.name.share()?,
            inputs: self.inputs.share()?,
            line: self.line,
        })
    }
}

impl Said {
    /// How many bytes it has.
    pub fn len(&self) -> usize {
        match self {
            Said::Line(text) => text.as_str().len(),
            Said::Call(call) => call.inputs.as_str().len(),
        }
    }

    /// The same, with its texts shared. The error: an allocation failed.
    pub fn share(&self) -> Result<Said, AllocError>
        ensures { IfOk result (λ again. again ≡ self.now) }
    {
        match self {
            Said::Line(text) => Ok(Said::Line(text.share()?)),
            Said::Call(call) => Ok(Said::Call(call.share()?)),
        }
    }
}
