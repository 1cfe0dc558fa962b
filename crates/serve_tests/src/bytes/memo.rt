//! The values that are kept from one request to the next.

ghost use Rattle.std.specs.Prelude.{◌≡◌, ◌≤◌, IfOk, None, OnOk, length};
ghost use Rattle.star_memo.specs.Parses.{AreKept};
ghost use Rattle.star_memo.specs.Readings.{AreReadings};

use star_checks::holds;
use star_dialect::{Dialect, Language, Mode};
use star_host::{Reads, Texts, read_parsed};
use star_label::files::Files;
use star_label::label::Label;
use star_memo::compared::{Compared, same_texts};
use star_memo::outcomes::{Outcomes, Terms};
use star_memo::parses::Parses;
use star_memo::readings::{Arena, Readings};
use std::alloc::Global;
use std::collections::BTreeMap;
use std::sync::Wait;
use std::test::Fail;
use std::thread::Threads;

/// Two files. The second one has this text.
fn pair(alloc: Global, text: &str) -> Result<Files, Fail> {
    let mut files = BTreeMap::new(alloc);
    let first = String::from_str(alloc, "x = 1")?;
    files.insert(Label::read(alloc, "//:a.star", "")?, first)?;
    let second = String::from_str(alloc, text)?;
    files.insert(Label::read(alloc, "//:b.star", "")?, second)?;
    Ok(Files::new(alloc, files)?)
}

/// `count` files. Each loads the next one.
fn chain(alloc: Global, count: u32) -> Result<Files, Fail>
    requires { count ≤ 100 }
{
    let mut files = BTreeMap::new(alloc);
    for n in 0..count {
        let label = format!(in alloc; "//:f{}.star", 100 + n)?;
        let text = format!(in alloc; "load(\":f{}.star\", \"x\")", 101 + n)?;
        files.insert(Label::read(alloc, label.as_str(), "")?, text)?;
    }
    Ok(Files::new(alloc, files)?)
}

/// The results of parsing the texts of files: none yet.
fn unparsed(alloc: Global, files: &Files) -> Result<Parses, Fail>
    ensures { IfOk result (λ parses. AreKept files.now parses.all.items) }
{
    let same = same_texts(alloc, files, files)?;
    let compared = Compared::new(files, files, same.as_slice());
    Ok(Parses::new(alloc).after(alloc, &compared)?)
}

/// Reads the first two files, by their trees that lie in the arena.
fn read_over<'t, R: Threads + Wait + Sync>(
    rt: &R,
    alloc: Global,
    files: &Files,
    arena: &'t Arena,
    readings: &mut Readings<'t>,
) -> Result<(), Fail>
    requires files { 2 ≤ length files.now }
    requires readings { AreReadings files.now readings.old }
    requires prelude { readings.old.prelude ≡ None }
    ensures { OnOk result (AreReadings files.now readings.new) }
{
    let language = readings.language.share(alloc)?;
    let texts = Texts {
        files,
        trees: &arena.trees,
        parses: readings.parses.as_slice(),
        language: &language,
    };
    let none = Reads::new(alloc);
    let reads = read_parsed(rt, alloc, texts, none, &[0, 1], None, 2)?;
    readings.reads = reads;
    Ok(())
}

/// The readings of the first two files, whose trees are put into the arena.
fn read_two<'t, R: Threads + Wait + Sync>(
    rt: &R,
    alloc: Global,
    files: &Files,
    arena: &'t Arena,
) -> Result<Readings<'t>, Fail>
    requires { 2 ≤ length files.now }
    ensures { IfOk result (AreReadings files.now) }
{
    let mut parses = unparsed(alloc, files)?;
    let first = [0, 1].iter().copied().collect(alloc)?;
    parses.parse_reached(rt, alloc, files, &[], first, 2)?;
    let mut readings = Readings::new(alloc, None, Language::of(alloc, Dialect::Core));
    readings.take_parses(rt, arena, files, &parses)?;
    read_over(rt, alloc, files, arena, &mut readings)?;
    Ok(readings)
}

#[test]
fn the_reading_of_a_text_that_stays_is_kept(rt: HostRuntime) -> Result<(), Fail> {
    let alloc = rt.alloc();
    let before = pair(alloc, "y = 2")?;
    let files = pair(alloc, "y = 3")?;
    if before.len() != 2 {
        return Err(Fail::from("two files are wanted"));
    }
    let arena = Arena::new(alloc)?;
    let readings = read_two(&rt, alloc, &before, &arena)?;
    holds!(&rt; matches!(readings.reads.all.as_slice(), [Some(_), Some(_)]), "both are read");
    holds!(&rt; arena.trees.all.is_empty(), "no text is parsed again");
    let same = same_texts(alloc, &before, &files)?;
    let readings = readings.after(
        alloc,
        &Compared::new(&before, &files, same.as_slice()),
        None,
        Language::of(alloc, Dialect::Core),
    );
    holds!(&rt; matches!(readings.reads.all.as_slice(), [Some(_), None]), "the first stays");
    holds!(&rt; matches!(readings.parses.as_slice(), [Some(_), None]), "so does its tree");
    let same = same_texts(alloc, &files, &files)?;
    let readings = readings.after(
        alloc,
        &Compared::new(&files, &files, same.as_slice()),
        Some(0),
        Language::of(alloc, Dialect::Core),
    );
    holds!(&rt; readings.reads.all.is_empty(), "with another prelude none stays");
    let none = Parses::new(alloc);
    holds!(&rt; !arena.is_full(&files, &none, 10), "the texts have ten bytes");
    holds!(&rt; arena.is_full(&files, &none, 9), "they have too many");
    Ok(())
}

#[test]
fn a_text_that_stays_keeps_its_tree(rt: HostRuntime) -> Result<(), Fail> {
    let alloc = rt.alloc();
    let before = pair(alloc, "y = 2")?;
    let files = pair(alloc, "y = 3")?;
    let mut parses = unparsed(alloc, &before)?;
    let first = [0, 1].iter().copied().collect(alloc)?;
    parses.parse_reached(&rt, alloc, &before, &[], first, 2)?;
    let views = parses.views(alloc, &before)?;
    holds!(&rt; views.iter().all(|view| view.is_some()), "both are parsed");
    let same = same_texts(alloc, &before, &files)?;
    let mut parses = parses.after(alloc, &Compared::new(&before, &files, same.as_slice()))?;
    holds!(&rt; matches!(parses.all.as_slice(), [Some(_), None]), "the first stays");
    parses.touch_each(&[0], 7);
    holds!(&rt; matches!(parses.all.as_slice(), [Some(kept), None] if kept.used == 7), "it was reached");
    parses.trim(alloc, &files, 5);
    holds!(&rt; matches!(parses.all.as_slice(), [Some(_), None]), "it is within the bound");
    parses.trim(alloc, &files, 4);
    holds!(&rt; matches!(parses.all.as_slice(), [None, None]), "it is beyond the bound");
    Ok(())
}

#[test]
fn several_threads_parse_all_that_is_reached(rt: HostRuntime) -> Result<(), Fail> {
    let alloc = rt.alloc();
    let files = chain(alloc, 40)?;
    let mut parses = unparsed(alloc, &files)?;
    let first = [0, 39].iter().copied().collect(alloc)?;
    parses.parse_reached(&rt, alloc, &files, &[], first, 2)?;
    let views = parses.views(alloc, &files)?;
    holds!(&rt; views.iter().all(|view| view.is_some()), "all are parsed");
    Ok(())
}

#[test]
fn no_outcome_is_kept_of_no_run(rt: HostRuntime) -> Result<(), Fail> {
    let alloc = rt.alloc();
    let files = pair(alloc, "y = 2")?;
    let terms = Terms {
        prelude: None,
        mode: Mode::core(alloc, 9),
    };
    let none = Outcomes::new(alloc, terms.share(alloc)?);
    let same = same_texts(alloc, &files, &files)?;
    let compared = Compared::new(&files, &files, same.as_slice());
    let (outcomes, others) = none.after(&rt, alloc, &compared, terms, 2)?;
    holds!(&rt; outcomes.all.is_empty(), "none is kept");
    holds!(&rt; others.is_empty(), "there are no others");
    Ok(())
}

#[test]
fn a_copy_of_files_has_a_text_of_its_own(rt: HostRuntime) -> Result<(), Fail> {
    let alloc = rt.alloc();
    let files = pair(alloc, "y = 2")?;
    if files.len() != 2 {
        return Err(Fail::from("two files are wanted"));
    }
    let mut copy = files.again(alloc)?;
    copy.set_text(alloc, 1, String::from_str(alloc, "y = 3")?)?;
    holds!(&rt; copy.text(1) == "y = 3", "the copy has another text");
    holds!(&rt; files.text(1) == "y = 2", "the files stay");
    holds!(&rt; !copy.has_long_text(), "no text is too long");
    Ok(())
}
