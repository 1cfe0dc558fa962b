//! The line of a file: its label, the size and the digest of its text, and the labels that it loads.

ghost use Rattle.std.specs.Prelude.{◌≡◌, IfOk, map, string_bytes};
ghost use Rattle.serde_json.specs.Data.{string};
ghost use Rattle.serde_json.specs.View.{view};
ghost use Rattle.hex.specs.Hex.{encode_lower};
ghost use Rattle.sha2.specs.Sha256.{sha256};
ghost use Rattle.star_label.specs.View.{text_of};
ghost use Rattle.star_graph.specs.Line.{line_data, line_text};

use serde_json::{Value, json};
use sha2::{Digest, Sha256};
use star_label::label::Label;
use std::alloc::{AllocError, Global};

/// Labels as JSON.
fn label_values(alloc: Global, labels: &[Label]) -> Result<Vec<Value>, AllocError>
    ensures { IfOk result (λ v. map view v.items ≡ map string (map text_of labels.now)) }
{
    let mut values = Vec::new(alloc);
    for label in labels {
        values.push(Value::try_from_str(alloc, label.text())?)?;
    }
    Ok(values)
}

/// The SHA-256 digest of a text, in hexadecimal digits.
fn digest_of(alloc: Global, text: &str) -> Result<String, AllocError>
    ensures { IfOk result (λ digest. string_bytes digest ≡ encode_lower (sha256 text.now)) }
{
    let digest = Sha256::digest(text);
    hex::encode(alloc, digest)
}

/// The line of a file as JSON.
fn line_value(
    alloc: Global,
    label: &Label,
    text: &str,
    loads: &[Label],
) -> Result<Value, AllocError>
    ensures { IfOk result (λ v. view v ≡ line_data (text_of label.now) text.now (map text_of loads.now)) }
{
    let digest = digest_of(alloc, text)?;
    let loads = Value::Array(label_values(alloc, loads)?);
    let (label, digest) = (label.text(), digest.as_str());
    json!(in alloc; {"bytes": text.len() as u64, "label": label, "loads": loads, "sha256": digest})
}

/// The line of a file with this label, text and loads, with its line end.
pub(crate) fn line_of(
    alloc: Global,
    label: &Label,
    text: &str,
    loads: &[Label],
) -> Result<Vec<u8>, AllocError>
    ensures { IfOk result (λ l. l.items ≡ line_text (text_of label.now) text.now (map text_of loads.now)) }
{
    let value = line_value(alloc, label, text, loads)?;
    let mut line = value.to_vec(alloc)?;
    line.push(b'\n')?;
    Ok(line)
}
