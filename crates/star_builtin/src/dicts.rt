//! `dict`: pairs and keyword arguments are gathered into a new dictionary. The pairs of a value are those that `update`
//! puts in (`star_machine::pairs`).

ghost use Rattle.std.specs.Prelude.{[], IfOk, OnOk};
ghost use Rattle.star_meaning.specs.BuiltIns.{call_dict};
ghost use Rattle.star_machine.specs.DictBuilder.{IsGathered};
ghost use Rattle.star_machine.specs.Refines.{Refines, RefinesBy};
ghost use Rattle.star_meaning.specs.Pairs as spec;
ghost use Rattle.star_machine.specs.Pairs.{as_pairs};
ghost use Rattle.star_builtin.specs.Dicts.{Puts, put_named};

use star_machine::call::Call;
use star_machine::fault::EvalError;
use star_machine::gathered::DictBuilder;
use star_machine::machine::Machine;
use star_machine::pairs::{Pairs, check_pair, pairs_count, pairs_of};
use star_machine::setting::Setting;
use star_meaning::given::KeywordArgument;
use star_store::values::{Entries, Value};

/// Puts a pair in, whose key is checked unless it is a key already. `BadType` if it is not hashable.
fn put_pair(
    machine: &mut Machine,
    setting: &Setting,
    levels: u32,
    line: usize,
    are_keys: bool,
    gathered: &mut DictBuilder,
    pair: (Value, Value),
) -> Result<(), EvalError>
    requires { IsGathered setting.now machine.old.store gathered.old }
    ensures put { Puts (spec.with_pair setting.now levels line are_keys gathered.old.entries pair machine.old)
        result gathered.new.entries machine.new }
    ensures gathered { OnOk result (IsGathered setting.now machine.new.store gathered.new) }
{
    check_pair(machine, setting, levels, line, are_keys, pair.0)?;
    gathered.put(machine, setting, pair)?;
    Ok(())
}

/// The entries of a new dictionary of pairs. `BadType` if a key is not hashable.
fn with_pairs(
    machine: &mut Machine,
    setting: &Setting,
    levels: u32,
    line: usize,
    are_keys: bool,
    pairs: &[(Value, Value)],
) -> Result<DictBuilder, EvalError>
    ensures answer { RefinesBy (λ g. g.entries)
        (spec.with_pairs setting.now levels line are_keys [] pairs.now machine.old) result machine.new }
    ensures gathered { IfOk result (λ g. IsGathered setting.now machine.new.store g) }
{
    let mut gathered = DictBuilder::new(machine.alloc());
    for pair in pairs {
        put_pair(
            machine,
            setting,
            levels,
            line,
            are_keys,
            &mut gathered,
            *pair,
        )?;
    }
    Ok(gathered)
}

/// Puts a named value in, under its name as a key.
fn put_named(
    machine: &mut Machine,
    setting: &Setting,
    line: usize,
    gathered: &mut DictBuilder,
    named: &KeywordArgument,
) -> Result<(), EvalError>
    requires { IsGathered setting.now machine.old.store gathered.old }
    ensures put { Puts (put_named setting.now line gathered.old.entries named.now machine.old)
        result gathered.new.entries machine.new }
    ensures gathered { OnOk result (IsGathered setting.now machine.new.store gathered.new) }
{
    let key = machine.key_for(line, named)?;
    gathered.put(machine, setting, (key, named.value))?;
    Ok(())
}

/// Puts named values in, each under its name as a key.
fn with_named(
    machine: &mut Machine,
    setting: &Setting,
    line: usize,
    gathered: DictBuilder,
    named: &[KeywordArgument],
) -> Result<Entries, EvalError>
    requires { IsGathered setting.now machine.old.store gathered }
    ensures { Refines (spec.with_named setting.now line gathered.entries named.now machine.old) result machine.new }
{
    let mut gathered = gathered;
    for value in named {
        put_named(machine, setting, line, &mut gathered, value)?;
    }
    Ok(gathered.into_entries())
}

/// A new dictionary of pairs and keyword arguments. `BadType` if a key is not hashable.
#[tactic(auto, unfolding(star_meaning::specs::Pairs::dict_of))]
fn dict_of(
    machine: &mut Machine,
    setting: &Setting,
    levels: u32,
    line: usize,
    pairs: &Pairs,
    named: &[KeywordArgument],
) -> Result<Value, EvalError>
    ensures { Refines (spec.dict_of setting.now levels line (as_pairs pairs.now) named.now machine.old)
        result machine.new }
{
    let are_keys = pairs.are_keys;
    let gathered = with_pairs(
        machine,
        setting,
        levels,
        line,
        are_keys,
        pairs.pairs.as_slice(),
    )?;
    let entries = with_named(machine, setting, line, gathered, named)?;
    machine.new_dict(line, entries)
}

/// `dict([x], **kw)`: a new dictionary of the pairs of a value and of the keyword arguments. `Args` for more values,
/// `BadType` if the value or an item is not iterable or a key is not hashable, `BadValue` for an item without two
/// items.
pub fn call_dict(machine: &mut Machine, call: &Call) -> Result<Value, EvalError>
    ensures { Refines (call_dict call.now.setting.now call.now.levels call.now.line call.now.given.now machine.old)
        result machine.new }
{
    let value = machine.none_or_one(call.line, call.given.positional.as_slice())?;
    let count = pairs_count(machine, call.setting, call.line, value)?;
    let pairs = pairs_of(machine, call.setting, call.line, value, count)?;
    dict_of(
        machine,
        call.setting,
        call.levels,
        call.line,
        &pairs,
        call.given.named.as_slice(),
    )
}
