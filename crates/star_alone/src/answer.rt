//! From the bytes of a bundle to the text of its report, by the caller's own thread.

ghost use Rattle.std.specs.Prelude.{◌≡◌, ◌+◌, ◌<◌, ◌≤◌, ◌⊎◌, All, IfErr, IfOk, IfSome, Ok, length};
ghost use Rattle.star_bundle.specs.Refusal.{Gives};
ghost use Rattle.star_bundle.specs.View.{asked_view};
ghost use Rattle.star_alone.specs.Alone.{IsAnswerTo, IsAnswered, IsRefusedBy, asked_by, recording};

use crate::reading::tree_cells;
use crate::report::report_alone;
use crate::running::run_alone;
use star_bundle::bundle::{AskedFor, asked_for};
use star_bundle::error::ServeError;
use star_dialect::Mode;
use star_host::{Reads, RunError, RunOptions};
use star_outcome::shelf::Shelf;
use star_reading::record::are_recordable;
use star_report::report::all_good;
use star_report::wanted::Wanted;
use star_tree::tree::Tree;
use std::alloc::Global;
use std::hash::{DefaultHasher, Hasher};

/// The most bytes that a bundle may have.
const MOST_BYTES: usize = 268_435_456;

/// The text of a report, and whether every module of it is ok.
#[derive(Drop)]
pub struct Answered {
    pub text: Vec<u8>,
    pub all_ok: bool,
}

/// Runs the roots that are asked for over these cells, and writes the report.
fn answer_over<'t>(
    alloc: Global,
    asked: &AskedFor,
    trees: &'t Shelf<Tree>,
    reads: &mut Reads<'t>,
    mode: &Mode,
    seed: u64,
    wanted: Wanted,
) -> Result<Answered, ServeError>
    requires cells { length trees.now ≡ length asked.now.files + 1 }
    requires roots { All (λ n. n < length asked.now.files) asked.now.roots.items }
    requires prelude { IfSome asked.now.prelude (λ n. n < length asked.now.files) }
    requires steps { (1 ≤ mode.now.steps) × (mode.now.steps ≤ 100000000) }
    ensures kinds { IfErr result (λ e. (e ≡ ServeError.Memory) ⊎ (e ≡ ServeError.Unpublished)) }
    ensures ok { IfOk result (λ a. IsAnswered wanted (asked_view asked.now) mode.now a.text.items a.all_ok) }
{
    let files = &asked.files;
    let roots = asked.roots.as_slice();
    let options = RunOptions {
        roots,
        prelude: asked.prelude,
        loaders: 1,
        mode,
        seed,
        ballast: None,
    };
    let mut run = match run_alone(alloc, files, trees, reads, options) {
        Ok(run) => run,
        Err(RunError::Memory) => return Err(ServeError::Memory),
        Err(RunError::Unpublished) => return Err(ServeError::Unpublished),
    };
    let text = report_alone(alloc, files, reads, &mut run, roots, wanted)?;
    let all_ok = all_good(&mut run);
    Ok(Answered { text, all_ok })
}

/// The report of the input that is asked for, with the further members of each module that are wanted.
fn answer_asked(
    alloc: Global,
    asked: &AskedFor,
    mode: &Mode,
    seed: u64,
    wanted: Wanted,
) -> Result<Answered, ServeError>
    requires roots { All (λ n. n < length asked.now.files) asked.now.roots.items }
    requires prelude { IfSome asked.now.prelude (λ n. n < length asked.now.files) }
    requires steps { (1 ≤ mode.now.steps) × (mode.now.steps ≤ 100000000) }
    ensures kinds { IfErr result (λ e. (e ≡ ServeError.Memory) ⊎ (e ≡ ServeError.Unpublished)) }
    ensures ok { IfOk result (λ a. IsAnswered wanted (asked_view asked.now) mode.now a.text.items a.all_ok) }
{
    let trees = tree_cells(alloc, &asked.files)?;
    let mut reads = Reads::new(alloc);
    answer_over(alloc, asked, &trees, &mut reads, mode, seed, wanted)
}

/// The seed for the hashes of keys, drawn from the input: to choose keys that all collide, one must know the input that
/// they are a part of.
fn seed_of(bytes: &[u8]) -> u64 {
    let mut hasher = DefaultHasher::new();
    hasher.write(bytes);
    hasher.finish()
}

/// The input, by the bytes of a bundle and the words of the roots and the prelude. `TooBig` if there are too many bytes.
#[tactic(auto, unfolding(crate::specs::Alone::asked_within))]
fn input_of(
    alloc: Global,
    bytes: &[u8],
    roots: &[String],
    prelude: Option<&String>,
) -> Result<AskedFor, ServeError>
    ensures asked { Gives asked_view result (asked_by roots.now prelude.entry bytes.now) }
    ensures roots { IfOk result (λ a. All (λ n. n < length a.files) a.roots.items) }
    ensures prelude { IfOk result (λ a. IfSome a.prelude (λ n. n < length a.files)) }
{
    if bytes.len() > MOST_BYTES {
        return Err(ServeError::TooBig);
    }
    asked_for(alloc, bytes, roots, prelude)
}

/// The report of the bundle with these bytes, for these roots and this prelude, with the further members of each module
/// that are wanted. `mode` has the steps that each body may take, from 1 to 100,000,000, and the language. All is done by
/// the caller's own thread, and all memory but the text's is back when it returns.
///
/// The rules are in `docs/USING.md`: what a bundle is, the refusals in their order, and the report. `TooBig` if there
/// are more than 268,435,456 bytes, before all other refusals.
pub fn answer_alone(
    alloc: Global,
    bytes: &[u8],
    roots: &[String],
    prelude: Option<&String>,
    mode: &Mode,
    wanted: Wanted,
) -> Result<Answered, ServeError>
    requires steps { (1 ≤ mode.now.steps) × (mode.now.steps ≤ 100000000) }

    // The bytes are a bundle that has each root and the prelude. The text is its report, and the answer is whether each
    // module of it is ok.
    ensures ok { IfOk result (λ a.
        IsAnswerTo (recording mode.now (asked_by roots.now prelude.entry bytes.now)) wanted mode.now
        a.text.items a.all_ok) }

    // The refusal is the first that the rules give, or an allocation failed, or a module was not published.
    ensures refused { IfErr result (IsRefusedBy (recording mode.now (asked_by roots.now prelude.entry bytes.now))) }
{
    let asked = match input_of(alloc, bytes, roots, prelude) {
        Ok(asked) => asked,
        Err(error) => return Err(error),
    };
    if !are_recordable(mode.language.recorded.names()) {
        return Err(ServeError::BadRecord);
    }
    match answer_asked(alloc, &asked, mode, seed_of(bytes), wanted) {
        Ok(answered) => Ok(answered),
        Err(error) => Err(error),
    }
}
