//! A round of the reading: looks up the labels that wait, parses their texts, and collects their loads.

ghost use Rattle.std.specs.Prelude.{◌≡◌, ◌+◌, ℕ, suc, [], IfOk, IfErr, OnOk, true, vec_len};
ghost use Rattle.star_label.specs.Label.{is_package};
ghost use Rattle.star_scope.specs.Loads.{written, written_in};
ghost use Rattle.star_repo.specs.Held.{Said};
ghost use Rattle.star_repo.specs.Parsed.{AreParsed};
ghost use Rattle.star_repo.specs.Reach.{Words};
ghost use Rattle.star_repo.specs.Views.{AllRead, FailsAmong, GainsFile, GainsLabels, GainsLoads, IsNamed, IsOnWay, LooksUpAll, labels_of, reads_failed};

use crate::error::ReadError;
use crate::found::{Found, ReadFile};
use crate::read::after_label;
use crate::repo::Repo;
use star_label::error::LabelError;
use star_label::label::Label;
use star_reading::parses::Parsed;
use star_tree::tree::{Form, Statement};
use std::alloc::{AllocError, Global};
use std::collections::{BTreeMap, BTreeSet};

/// Looks up the labels that wait, in their order.
pub(crate) fn read_round<'t, F: Repo>(
    alloc: Global,
    folder: &mut F,
    found: Found<'t>,
    mut waiting: BTreeSet<Label>,
) -> Result<Found<'t>, ReadError>
    ensures on_way { IfOk result (LooksUpAll (F.says folder.old) found.entry (labels_of waiting.keys)) }
    ensures refused { IfErr result (FailsAmong (F.says folder.old) found.entry (labels_of waiting.keys)) }
    ensures read { IfOk result (λ after. AllRead found.entry.looked → AllRead after.looked) }
    ensures counted { IfOk result (λ after.
        after.count + vec_len found.entry.fresh ≡ found.entry.count + vec_len after.fresh) }
    ensures same { F.says folder.new ≡ F.says folder.old }
    ensures failed { F.failed folder.new ≡ F.failed folder.old + reads_failed result }
{
    let mut found = found;
    while let Some(label) = waiting.pop_first() {
        match after_label(alloc, folder, found, label) {
            Ok(after) => found = after,
            Err(error) => return Err(error),
        }
    }
    Ok(found)
}

/// The label that a statement loads waits, in a file of this package.
fn add_load(
    alloc: Global,
    waiting: &mut BTreeSet<Label>,
    package: &str,
    statement: &Statement,
) -> Result<(), AllocError>
    requires { is_package «package».now ≡ true }
    ensures { OnOk result
        (GainsLabels waiting.old.keys waiting.new.keys (IsNamed «package».now (written_in statement.now))) }
{
    match &statement.form {
        Form::Load {
            module: module_string,
            names: _,
        } => match Label::read(alloc, module_string.text.as_str(), package) {
            Ok(label) => {
                waiting.insert(label)?;
                Ok(())
            }
            Err(LabelError::BadLabel) => Ok(()),
            Err(_) => Err(AllocError),
        },
        _ => Ok(()),
    }
}

/// The labels that a file of this package loads wait.
pub(crate) fn add_loads(
    alloc: Global,
    waiting: &mut BTreeSet<Label>,
    package: &str,
    statements: &[Statement],
) -> Result<(), AllocError>
    requires { is_package «package».now ≡ true }
    ensures { OnOk result
        (GainsLabels waiting.old.keys waiting.new.keys (IsNamed «package».now (written statements.now))) }
{
    for statement in statements {
        add_load(alloc, waiting, package, statement)?;
    }
    Ok(())
}

/// The labels that a file loads wait to be looked up. There are none if its text does not parse.
fn add_file(
    alloc: Global,
    waiting: &mut BTreeSet<Label>,
    label: &Label,
    parsed: Parsed,
) -> Result<(), AllocError>
    ensures { OnOk result (GainsLoads waiting.old.keys waiting.new.keys label.now parsed.entry) }
{
    match parsed {
        Ok(tree) => add_loads(alloc, waiting, label.package(), tree.statements.as_slice()),
        Err(_) => Ok(()),
    }
}

/// A fresh file is put beside the result of parsing it, and the labels that it loads wait.
fn settle<'t>(
    alloc: Global,
    looked: &mut BTreeMap<Label, Option<ReadFile<'t>>>,
    waiting: &mut BTreeSet<Label>,
    fresh: (Label, String),
    parsed: Parsed<'t>,
) -> Result<(), AllocError>
    ensures looked { OnOk result (GainsFile looked.old.entries looked.new.entries fresh parsed.entry) }
    ensures waiting { OnOk result (GainsLoads waiting.old.keys waiting.new.keys fresh.0 parsed.entry) }
{
    let (label, text) = fresh;
    add_file(alloc, waiting, &label, parsed)?;
    looked.insert(label, Some(ReadFile { text, parsed }))?;
    Ok(())
}

/// The round ends: each fresh file is put beside the result of parsing it, and the labels that they load wait.
pub(crate) fn settled<'t>(
    alloc: Global,
    found: Found<'t>,
    mut parses: Vec<Parsed<'t>>,
) -> Result<(Found<'t>, BTreeSet<Label>), AllocError>
    requires { AreParsed found.fresh.items parses.items }
    ensures on_way { IfOk result (λ r. (said : Said) (words : Words) (d : ℕ) → IsOnWay said words d found.entry []
        → IsOnWay said words (suc d) r.0 (labels_of r.1.keys)) }
    ensures read { IfOk result (λ r. AllRead found.entry.looked → AllRead r.0.looked) }
    ensures count { IfOk result (λ r. r.0.count ≡ found.entry.count) }
    ensures fresh { IfOk result (λ r. r.0.fresh.items ≡ []) }
{
    let Found {
        mut looked,
        mut fresh,
        count,
        size,
    } = found;
    let mut waiting = BTreeSet::new(alloc);
    while let Some(file) = fresh.pop() {
        let Some(parsed) = parses.pop() else {
            unreachable!()
        };
        settle(alloc, &mut looked, &mut waiting, file, parsed)?;
    }
    Ok((
        Found {
            looked,
            fresh,
            count,
            size,
        },
        waiting,
    ))
}
