//! The method `format`: walks over the format string, brace by brace.
//!
//! The string is cut only at ASCII braces, so each piece is UTF-8 and the work linear. It is copied once, since the
//! texts of fields change the machine.

ghost use Rattle.std.specs.Prelude.{◌≡◌, ◌≤◌, ◌∷◌, [], IfOk, false, length};
ghost use Rattle.star_attribute.specs.Formats.{ReadsOn, formatting};
ghost use Rattle.star_machine.specs.Cuts.{is_neither};
ghost use Rattle.star_meaning.specs.Format as spec;
ghost use Rattle.star_machine.specs.Refines.{Refines};
ghost use Rattle.star_machine.specs.Kinds.{bytes_of};
ghost use Rattle.star_meaning.specs.TextMethods as methods;
ghost use Rattle.star_meaning.specs.Values.{content};

use crate::fields::{Numbering, field_text};
use star_machine::call::Call;
use star_machine::cuts::{cut_at, first_ascii};
use star_machine::fault::{EvalError, fault_at};
use star_machine::machine::Machine;
use star_meaning::fault::FaultCode;
use star_method::texts::pay_for_bytes;
use star_store::values::Value;
use star_visit::draft::Draft;

/// Puts the text for the braces after a `{`: the text of a field's value, or a `{` for another `{`. Returns the rest of
/// the format, and how fields find their values from then on. `BadValue` if no brace follows, and for a `{` inside of a
/// field.
fn read_field<'a>(
    machine: &mut Machine,
    call: Call<'_>,
    out: &mut Draft,
    after: &'a str,
    numbering: Numbering,
) -> Result<(&'a str, Numbering), EvalError>
    ensures reads { ReadsOn call.entry
        (formatting call.entry after.now (spec.Field []) numbering out.old machine.old)
        result out.new machine.new }
    ensures shorter { IfOk result (λ r. length r.0.now ≤ length after.now) }
{
    let Some((field, brace, more)) = cut_at(after, b'{', b'}') else {
        return Err(fault_at(FaultCode::BadValue, call.line));
    };
    if brace == b'}' {
        let (text, next) = field_text(
            machine,
            call.setting,
            call.levels,
            call.line,
            call.given,
            field,
            numbering,
            out.room(),
        )?;
        out.put_draft(text)?;
        return Ok((more, next));
    }
    if !field.is_empty() {
        return Err(fault_at(FaultCode::BadValue, call.line));
    }
    out.say("{")?;
    Ok((more, numbering))
}

/// Puts the text for a brace and all that belongs to it. Returns the rest of the format, and how fields find their
/// values from then on. `BadValue` for a `{` that is not closed and for a `}` that closes nothing.
fn read_brace<'a>(
    machine: &mut Machine,
    call: Call<'_>,
    out: &mut Draft,
    brace: u8,
    after: &'a str,
    numbering: Numbering,
) -> Result<(&'a str, Numbering), EvalError>
    requires { is_neither 123 125 brace ≡ false }
    ensures reads { ReadsOn call.entry
        (formatting call.entry (brace ∷ after.now) spec.Outside numbering out.old machine.old)
        result out.new machine.new }
    ensures shorter { IfOk result (λ r. length r.0.now ≤ length after.now) }
{
    if brace == b'{' {
        return read_field(machine, call, out, after, numbering);
    }
    match first_ascii(after) {
        Some((b'}', more)) => {
            out.say("}")?;
            Ok((more, numbering))
        }
        _ => Err(fault_at(FaultCode::BadValue, call.line)),
    }
}

/// The format from left to right, with the texts of the values in the places of its fields. `BadValue` for braces that
/// are not paired, and the faults of the fields.
fn formatted(machine: &mut Machine, call: Call<'_>, format: &str) -> Result<Draft, EvalError>
    ensures { Refines (formatting call.entry format.now spec.Outside Numbering.Unused [] machine.old)
        result machine.new }
{
    let mut out = Draft::new(machine.alloc(), machine.steps_left() as usize);
    let mut rest = format;
    let mut numbering = Numbering::Unused;
    while let Some((before, brace, after)) = cut_at(rest, b'{', b'}') {
        out.say(before)?;
        let (more, next) = read_brace(machine, call, &mut out, brace, after, numbering)?;
        rest = more;
        numbering = next;
    }
    out.say(rest)?;
    Ok(out)
}

/// `format(*x, **kw)`: the bytes are paid, then a new string, with the `str` of a value in the place of each `{}` (the
/// next value), `{0}` (a value by its number) and `{name}`, and a brace for two. `BadValue` for another use of braces
/// and for `{}` beside a number, `Index` for a place beyond all values, `Key` for a name that is not given. The new string
/// is built only if it can be paid.
pub fn call_format(machine: &mut Machine, text: Value, call: &Call) -> Result<Value, EvalError>
    // It is long since it names each argument of the definition.
    ensures { Refines (methods.call_format call.now.setting.now call.now.levels call.now.line
        (bytes_of (content call.now.setting.now machine.old text)) call.now.given.now machine.old)
        result machine.new }
{
    let format = machine.copied_text(call.setting, text)?;
    pay_for_bytes(machine, call.setting, call.line, text)?;
    let made = formatted(machine, *call, format.as_str())?;
    machine.new_draft(call.line, made)
}
