//! The labels of the roots and of the prelude, from the words of the command line.

ghost use Rattle.std.specs.Prelude.{◌≡◌, ◌↔◌, ◌⊎◌, ℕ, List, IfOk, IfErr, MatchOption, option_map, string_bytes, true};
ghost use Rattle.star_bundle.specs.Bundle.{is_label};
ghost use Rattle.star_words.specs.Named.{AreAsked, AreLabelsOf, IsMisnamed, OneIsNone, texts_of};
ghost use Rattle.star_words.specs.Rows.{IsIn};
ghost use Rattle.star_words.specs.Named.{labels_of};

use star_bundle::bundle::normal_label;
use star_bundle::error::ServeError;
use star_label::label::Label;
use std::alloc::{AllocError, Global};
use std::collections::BTreeSet;

/// Puts a label among others. False if the text is not a label in normal form.
fn add_label(alloc: Global, labels: &mut BTreeSet<Label>, text: &str) -> Result<bool, AllocError>
    ensures is { IfOk result (λ is. is_label text.now ≡ is) }
    ensures added { IfOk result (λ is. is ≡ true → (m : List ℕ) → IsIn m (labels_of labels.new.keys)
        ↔ (IsIn m (labels_of labels.old.keys) ⊎ (m ≡ text.now))) }
{
    let Some(label) = normal_label(alloc, text)? else {
        return Ok(false);
    };
    labels.insert(label)?;
    Ok(true)
}

/// The labels of roots. `None` if one is not a label in normal form.
fn root_labels(alloc: Global, roots: &[String]) -> Result<Option<BTreeSet<Label>>, AllocError>
    ensures { IfOk result (λ labels. MatchOption labels (OneIsNone (texts_of roots.now))
        (λ set. AreLabelsOf (texts_of roots.now) (labels_of set.keys))) }
{
    let mut labels = BTreeSet::new(alloc);
    for root in roots {
        if !add_label(alloc, &mut labels, root.as_str())? {
            return Ok(None);
        }
    }
    Ok(Some(labels))
}

/// The labels that a run is asked for: the labels of its roots and of its prelude. `BadRoot` if a root is not a label
/// in normal form, else `BadPrelude` if the prelude is not one.
pub fn asked_labels(
    alloc: Global,
    roots: &[String],
    prelude: Option<&String>,
) -> Result<BTreeSet<Label>, ServeError>
    ensures asked { IfOk result (λ set. AreAsked (texts_of roots.now)
        (option_map (λ p. string_bytes p.now) prelude.entry) (labels_of set.keys)) }
    ensures refused { IfErr result (IsMisnamed (texts_of roots.now)
        (option_map (λ p. string_bytes p.now) prelude.entry)) }
{
    let Some(mut labels) = root_labels(alloc, roots)? else {
        return Err(ServeError::BadRoot);
    };
    let Some(prelude) = prelude else {
        return Ok(labels);
    };
    if !add_label(alloc, &mut labels, prelude.as_str())? {
        return Err(ServeError::BadPrelude);
    }
    Ok(labels)
}
