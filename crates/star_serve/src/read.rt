//! Reads a `Source` up to its end.

ghost use Rattle.std.specs.Prelude.{◌≡◌, ◌+◌, ◌≤◌, ◌⊎◌, length, IfOk, IfErr};
ghost use Rattle.star_serve.specs.Serve.{BreaksOff, Overruns, input_limit};
ghost use Rattle.star_bundle.specs.Refusal.{reads_failed};
ghost use Rattle.star_serve.specs.Stream.{GivesAll};

use crate::stream::Source;
use star_bundle::error::ServeError;
use std::alloc::Global;

/// The most bytes that a bundle may have.
const MOST_BYTES: usize = 268_435_456;

/// How many bytes are asked for at once.
const CHUNK: usize = 65_536;

/// All that the reader gives until it has no more.
///
/// `Read` if a read fails, which ends the reading. `TooBig` as soon as more than 268,435,456 bytes were given. `Memory`
/// if an allocation failed.
pub fn read_all<R: Source>(alloc: Global, reader: &mut R) -> Result<Vec<u8>, ServeError>
    ensures ok { IfOk result (λ bytes. GivesAll (R.said reader.old) (R.said reader.new) bytes.items) }
    ensures within { IfOk result (λ bytes. length bytes.items ≤ input_limit) }
    ensures read { result ≡ Err ServeError.Read → BreaksOff (R.said reader.old) (R.said reader.new) }
    ensures too_big { result ≡ Err ServeError.TooBig → Overruns (R.said reader.old) (R.said reader.new) }
    ensures kinds { IfErr result (λ e. (e ≡ ServeError.Read) ⊎ (e ≡ ServeError.TooBig) ⊎ (e ≡ ServeError.Memory)) }
    ensures counts { R.failed reader.new ≡ R.failed reader.old + reads_failed result }
{
    let mut bytes = Vec::new(alloc);
    let mut buffer = [0u8; CHUNK];
    loop {
        let count = match reader.read(&mut buffer) {
            Ok(count) => count,
            Err(_) => return Err(ServeError::Read),
        };
        if count == 0 {
            return Ok(bytes);
        }
        if count > MOST_BYTES - bytes.len() {
            return Err(ServeError::TooBig);
        }
        bytes.extend_from_slice(&buffer[..count])?;
    }
}
