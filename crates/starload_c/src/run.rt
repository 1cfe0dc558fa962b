//! The function that C calls.

ghost use Rattle.std.specs.Prelude.{◌≡◌, ◌≤◌, IfErr, IfOk, length, true, false};
ghost use Rattle.star_alone.specs.Alone.{IsRefusedBy};
ghost use Rattle.starload_c.specs.Calls as spec;

use crate::asked::{Answer, Asked, refusal_of};
use star_alone::answer::{Answered, answer_alone};
use star_bundle::error::ServeError;
use std::alloc::Global;

/// The refusal of steps that are not from 1 to 100,000,000.
const BAD_STEPS: u32 = 17;

/// The refusal of the words if one is not a text, or if there is no root.
const BAD_WORDS: u32 = 18;

/// The report that is asked for.
fn served(alloc: Global, asked: &Asked<'_>) -> Result<Answered, ServeError>
    requires { spec.Fits asked.now }
    ensures ok { IfOk result (λ a. spec.IsReport asked.now a.text.items a.all_ok) }
    ensures refused { IfErr result (IsRefusedBy (spec.asked_by asked.now)) }
{
    let roots = asked.root_texts(alloc)?;
    let prelude = asked.prelude_text(alloc)?;
    answer_alone(
        alloc,
        asked.bundle,
        roots.as_slice(),
        prelude.as_ref(),
        &asked.mode(alloc),
        asked.wanted(),
    )
}

/// The report that is asked for, or the number of the refusal.
fn answered(alloc: Global, asked: &Asked<'_>) -> Result<Answered, u32>
    ensures ok { IfOk result (λ a. spec.IsReport asked.now a.text.items a.all_ok) }
    ensures refused { IfErr result (spec.IsRefusal asked.now) }
{
    if !asked.steps_fit() {
        return Err(BAD_STEPS);
    }
    if !asked.words_fit() {
        return Err(BAD_WORDS);
    }
    match served(alloc, asked) {
        Ok(answered) => Ok(answered),
        Err(error) => Err(refusal_of(error)),
    }
}

/// Writes bytes to the front of a buffer.
fn put(out: &mut [u8], bytes: &[u8])
    requires { length bytes.now ≤ length out.old }
    ensures { spec.IsPut bytes.now out.old out.new }
{
    let (front, _) = out.split_at_mut(bytes.len());
    front.copy_from_slice(bytes);
}

/// Writes the report that is asked for to the front of `out`.
///
/// If `out` has no room for it, nothing is written, and the same call with room for `length` bytes writes it: a report
/// depends on nothing but the request. All memory is back when the call returns. Nothing is kept between calls.
#[unsafe(no_mangle)]
pub extern "C" fn starload_run(alloc: Global, asked: &Asked<'_>, out: &mut [u8]) -> Answer
    ensures status { result.status ≤ 3 }
    ensures ok { result.status ≡ 0 → spec.IsWritten asked.now true out.old out.new result }
    ensures faulty { result.status ≡ 1 → spec.IsWritten asked.now false out.old out.new result }
    ensures refused { result.status ≡ 2 → spec.IsRefused asked.now out.old out.new result }
    ensures room { result.status ≡ 3 → spec.IsTooLong asked.now out.old out.new result }
{
    let Answered { text, all_ok } = match answered(alloc, asked) {
        Ok(answered) => answered,
        Err(refusal) => {
            return Answer {
                status: 2,
                refusal,
                length: 0,
            };
        }
    };
    let length = text.len();
    if length > out.len() {
        return Answer {
            status: 3,
            refusal: 0,
            length,
        };
    }
    put(out, text.as_slice());
    Answer {
        status: if all_ok { 0 } else { 1 },
        refusal: 0,
        length,
    }
}
