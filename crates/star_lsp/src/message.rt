//! Messages of JSON-RPC 2.0: requests, notifications and answers.

ghost use Rattle.std.specs.Prelude.{◌≡◌, IfOk};
ghost use Rattle.serde_json.specs.Data.{Data};
ghost use Rattle.serde_json.specs.View.{view};
ghost use Rattle.star_lsp.specs.Message.{answer_data, code_of, diagnostic_data, error_data, notification_data, publication_data, refusal_data, related_data};

use serde_json::{Value, json};
use star_frames::place::Position;
use std::alloc::{AllocError, AllocFailed, Global};

/// A severity of the protocol: an error.
pub const ERROR: u64 = 1;

/// Why a request is refused.
#[derive(Clone, Copy, Debug, PartialEq, Eq)]
pub enum Refusal {
    /// The content of a frame is not JSON.
    NotJson,
    /// It is no message.
    NoMessage,
    /// The service has no such request.
    NoMethod,
    /// A parameter is missing, or is not as it must be.
    BadParameters,
    /// An allocation failed.
    Memory,
    /// The first request must be `initialize`.
    NotInitialized,
    /// The service was shut down.
    ShutDown,
    /// The file does not parse as it is now.
    NotParsed,
    /// What stands there cannot be renamed.
    NoVariable,
    /// The new name is not a name.
    NotAName,
    /// The new name means something else there.
    Taken,
}

impl Refusal {
    /// The code of the protocol.
    pub fn code(self) -> i32
        ensures { result ≡ code_of self }
    {
        match self {
            Refusal::NotJson => -32700,
            Refusal::NoMessage | Refusal::ShutDown => -32600,
            Refusal::NoMethod => -32601,
            Refusal::BadParameters | Refusal::NotAName => -32602,
            Refusal::Memory => -32603,
            Refusal::NotInitialized => -32002,
            Refusal::NotParsed | Refusal::NoVariable | Refusal::Taken => -32803,
        }
    }

    /// The text of the refusal.
    pub fn text(self) -> &'static str {
        match self {
            Refusal::NotJson => "not JSON",
            Refusal::NoMessage => "not a message of JSON-RPC 2.0",
            Refusal::NoMethod => "no such request",
            Refusal::BadParameters => "a parameter is missing, or is not as it must be",
            Refusal::Memory => "out of memory",
            Refusal::NotInitialized => "the first request must be `initialize`",
            Refusal::ShutDown => "the service was shut down",
            Refusal::NotParsed => "the file does not parse as it is now",
            Refusal::NoVariable => "only a variable of this file can be renamed",
            Refusal::NotAName => "the new name is not a name",
            Refusal::Taken => "the new name means something else here",
        }
    }
}

impl From<AllocError> for Refusal {
    fn from(_error: AllocError) -> Refusal {
        Refusal::Memory
    }
}

impl<T: Drop> From<AllocFailed<T>> for Refusal {
    fn from(_error: AllocFailed<T>) -> Refusal {
        Refusal::Memory
    }
}

/// The answer to the request with this `id`.
pub fn answer(alloc: Global, id: &Value, found: Value) -> Result<Value, AllocError>
    ensures { IfOk result (λ v. view v ≡ answer_data (view id.now) (view found)) }
{
    json!(in alloc; {"jsonrpc": "2.0", "id": id, "result": found})
}

/// An error with a code and a text.
fn error_value(alloc: Global, code: i32, text: &str) -> Result<Value, AllocError>
    ensures { IfOk result (λ v. view v ≡ error_data code text.now) }
{
    json!(in alloc; {"code": code, "message": text})
}

/// The answer with an error.
fn answer_with_error(alloc: Global, id: &Value, error: Value) -> Result<Value, AllocError>
    ensures { IfOk result (λ v. view v ≡ refusal_data (view id.now) (view error)) }
{
    json!(in alloc; {"jsonrpc": "2.0", "id": id, "error": error})
}

/// The answer that refuses the request with this `id`.
pub fn refused(alloc: Global, id: &Value, refusal: Refusal) -> Result<Value, AllocError>
    ensures { IfOk result (λ v. (error : Data) × (view v ≡ refusal_data (view id.now) error)) }
{
    let error = error_value(alloc, refusal.code(), refusal.text())?;
    answer_with_error(alloc, id, error)
}

/// A notification.
pub fn notification(alloc: Global, method: &str, params: Value) -> Result<Value, AllocError>
    ensures { IfOk result (λ v. view v ≡ notification_data method.now (view params)) }
{
    json!(in alloc; {"jsonrpc": "2.0", "method": method, "params": params})
}

/// A diagnostic: an error at a range.
pub fn diagnostic_with(
    alloc: Global,
    range: Value,
    code: &str,
    message: &str,
) -> Result<Value, AllocError>
    ensures { IfOk result (λ v. view v ≡ diagnostic_data (view range) code.now message.now) }
{
    json!(in alloc; {"range": range, "severity": ERROR, "code": code, "source": "starload", "message": message})
}

/// A diagnostic with places of other causes.
pub fn diagnostic_related(
    alloc: Global,
    range: Value,
    code: &str,
    message: &str,
    related: Value,
) -> Result<Value, AllocError>
    ensures { IfOk result (λ v.
        view v ≡ related_data (view range) code.now message.now (view related)) }
{
    json!(in alloc; {
        "range": range,
        "severity": ERROR,
        "code": code,
        "source": "starload",
        "message": message,
        "relatedInformation": related
    })
}

/// The parameters of a notification of diagnostics.
pub fn publication(
    alloc: Global,
    uri: &str,
    version: i64,
    diagnostics: Value,
) -> Result<Value, AllocError>
    ensures { IfOk result (λ v. view v ≡ publication_data uri.now version (view diagnostics)) }
{
    json!(in alloc; {"uri": uri, "version": version, "diagnostics": diagnostics})
}

/// The text at a path of a message.
pub fn text_at<'m>(message: &'m Value, path: &str) -> Result<&'m str, Refusal> {
    match message.pointer(path) {
        Some(value) => value.as_str().ok_or(Refusal::BadParameters),
        None => Err(Refusal::BadParameters),
    }
}

/// The number at a path of a message.
fn number_at(message: &Value, path: &str) -> Result<usize, Refusal> {
    let number = match message.pointer(path) {
        Some(value) => value.as_u64(),
        None => None,
    };
    match number {
        Some(number) => Ok(number as usize),
        None => Err(Refusal::BadParameters),
    }
}

/// The URI of the file that a message is about.
pub fn uri_in(message: &Value) -> Result<&str, Refusal> {
    text_at(message, "/params/textDocument/uri")
}

/// The position that a message is about.
pub fn position_in(message: &Value) -> Result<Position, Refusal> {
    Ok(Position {
        line: number_at(message, "/params/position/line")?,
        column: number_at(message, "/params/position/character")?,
    })
}

/// The range that a message is about: its start and its end.
pub fn range_in(message: &Value) -> Result<(Position, Position), Refusal> {
    let start = Position {
        line: number_at(message, "/params/range/start/line")?,
        column: number_at(message, "/params/range/start/character")?,
    };
    let end = Position {
        line: number_at(message, "/params/range/end/line")?,
        column: number_at(message, "/params/range/end/character")?,
    };
    Ok((start, end))
}
