//! Positions and ranges as JSON.

ghost use Rattle.std.specs.Prelude.{◌≡◌, IfOk};
ghost use Rattle.serde_json.specs.View.{view};
ghost use Rattle.star_lsp.specs.Place.{IsRange, position_data, range_data};

use serde_json::{Value, json};
use star_frames::place::{Places, Position};
use star_lex::token::Span;
use std::alloc::{AllocError, Global};

/// A position.
fn position_value(alloc: Global, position: Position) -> Result<Value, AllocError>
    ensures { IfOk result (λ v. view v ≡ position_data position) }
{
    json!(in alloc; {"line": position.line as u64, "character": position.column as u64})
}

/// A start and an end.
fn ends_value(alloc: Global, start: Value, end: Value) -> Result<Value, AllocError>
    ensures { IfOk result (λ v. view v ≡ range_data (view start) (view end)) }
{
    json!(in alloc; {"start": start, "end": end})
}

/// The range of bytes of a text.
pub(crate) fn range_value(
    alloc: Global,
    places: &Places,
    text: &str,
    span: Span,
) -> Result<Value, AllocError>
    ensures { IfOk result (λ v. IsRange places.now text.now span (view v)) }
{
    let start = position_value(alloc, places.position(text, span.start))?;
    let end = position_value(alloc, places.position(text, span.end))?;
    ends_value(alloc, start, end)
}
