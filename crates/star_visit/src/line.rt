//! The beginnings of the lines of JSON.

ghost use Rattle.std.specs.Prelude.{◌≡◌, ◌++◌, OnOk, length, string_bytes};
ghost use Rattle.star_store.specs.Json.{begun};

use std::alloc::AllocError;

/// How long a line end and the beginning of a line are.
pub(crate) fn line_length(prefix: &str, indent: &str, depth: u32) -> u128
    ensures { result ≡ length (begun prefix.now indent.now depth) }
{
    1 + prefix.len() as u128 + depth as u128 * indent.len() as u128
}

/// Puts a line end and the beginning of a line after a text: the prefix, and the indent this many times.
pub(crate) fn put_line(
    out: &mut String,
    prefix: &str,
    indent: &str,
    depth: u32,
) -> Result<(), AllocError>
    ensures { OnOk result (string_bytes out.new ≡ string_bytes out.old ++ begun prefix.now indent.now depth) }
{
    out.push('\n')?;
    out.push_str(prefix)?;
    for _i in 0..depth {
        out.push_str(indent)?;
    }
    Ok(())
}
