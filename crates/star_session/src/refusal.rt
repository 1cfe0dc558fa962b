//! The lines of answers.

ghost use Rattle.std.specs.Prelude.{◌≡◌, ◌∷◌, [], IfOk, codes, string_bytes};
ghost use Rattle.serde_json.specs.Data.{string};
ghost use Rattle.serde_json.specs.Written.{compact_text};
ghost use Rattle.star_session.specs.Answers as spec;

use serde_json::Value;
use star_outcome::memory::room_for;
use std::alloc::{AllocError, Global};

/// The answer if there is no memory for another one.
pub(crate) const NO_MEMORY: &str = "{\"id\":null,\"refused\":\"out of memory\"}\n";

/// How many bytes of an answer are the same in each.
const AROUND: usize = 12;

/// The line of an answer: the id of its request, which is this JSON, and a member with this JSON. `frugal` if memory
/// counts more than time.
pub(crate) fn line_of(
    alloc: Global,
    id: &str,
    name: &str,
    json: &[u8],
    frugal: bool,
) -> Result<Vec<u8>, AllocError>
    ensures { IfOk result (λ line. line.items ≡ spec.answer_line id.now name.now json.now) }
{
    let room = id
        .len()
        .saturating_add(name.len())
        .saturating_add(json.len())
        .saturating_add(AROUND);
    let mut line = Vec::with_capacity(alloc, room_for(room, frugal))?;
    line.extend_from_slice(b"{\"id\":")?;
    line.extend_from_slice(id.as_bytes())?;
    line.extend_from_slice(b",\"")?;
    line.extend_from_slice(name.as_bytes())?;
    line.extend_from_slice(b"\":")?;
    line.extend_from_slice(json)?;
    line.extend_from_slice(b"}\n")?;
    Ok(line)
}

/// A text as JSON.
fn quoted(alloc: Global, text: &str) -> Result<String, AllocError>
    ensures { IfOk result (λ s. string_bytes s ≡ compact_text (string text.now)) }
{
    let text = Value::String(String::from_str(alloc, text)?);
    text.to_string(alloc)
}

/// The line of a refusal.
pub(crate) fn refusal(alloc: Global, id: &str, text: &str) -> Result<Vec<u8>, AllocError>
    ensures { IfOk result (λ line. line.items
        ≡ spec.answer_line id.now (codes "refused") (compact_text (string text.now))) }
{
    let text = quoted(alloc, text)?;
    line_of(alloc, id, "refused", text.as_bytes(), false)
}
