//! Tests of the resolver: the spots of the names of small files.

use star_checks::{holds, reads};
use star_dialect::{Dialect, Language};
use star_label::files::Files;
use star_label::label::Label;
use star_parser::parse;
use star_scope::error::ScopeFault;
use star_scope::law::spots_lead;
use star_scope::program::{Prelude, Program, resolve};
use star_scope::spot::Spot;
use star_tree::tree::Tree;
use std::alloc::{AllocError, Global};
use std::collections::BTreeMap;
use std::process::Abort;
use std::test::Fail;

/// Each row is a text, the text of the prelude (none if it is empty), and a result: the spots of its names by their
/// tokens, or the line of the first undefined name. A spot is a number of frames up and a slot, or `prelude`, or
/// `outermost`.
const ROWS: &str = "\
    \x1ex = 1\ny = x\n\x1f\x1f0=0.0 4=0.1 6=0.0 \
    \x1edef f(a):\n  def g(b):\n    def h(c): return a + b + c + f\n\x1f\x1f\
1=0.0 3=0.0 9=0.1 11=0.0 17=0.1 19=0.0 23=2.0 25=1.0 27=0.0 29=3.0 \
    \x1ex = 1\ndef f():\n  y = x\n  x = 2\n\x1f\x1f0=0.0 5=0.1 11=0.0 13=0.1 15=0.1 \
    \x1ex = 1\ndef f():\n  x = 2\n  def g(): return x\n  def h(x): return x\n\x1f\x1f\
0=0.0 5=0.1 11=0.0 16=0.1 21=1.0 24=0.2 26=0.0 30=0.0 \
    \x1edef f(n): return lambda x = n: [x + y + n for y in n]\n\x1f\x1f\
1=0.0 3=0.0 8=0.0 10=0.0 13=1.0 15=0.0 17=2.0 19=0.0 21=1.0 \
    \x1ey = 1\n[x for x in x]\nx = 2\n\x1f\x1f0=0.0 5=0.0 7=0.0 9=0.1 12=0.1 \
    \x1e[0 for a in b for b in a]\nb = 1\n\x1f\x1f3=0.0 5=0.0 7=0.1 9=0.0 12=0.0 \
    \x1e{k: v for k, v in d if k}\nd = 0\n\x1f\x1f1=0.0 3=0.1 5=0.0 7=0.1 9=0.0 11=0.0 14=0.0 \
    \x1edef f(a = a): pass\na = 1\n\x1f\x1f1=0.0 3=0.0 5=0.1 10=0.1 \
    \x1edef f(): return\nif False:\n  print(len)\n\x1f\x1f1=0.0 8=outermost 12=outermost 14=outermost \
    \x1edef f(): return\nif False:\n  print(q, len)\n\x1f\x1fundefined 3\
    \x1eu[0] = v\n\x1f\x1fundefined 1\
    \x1ea = p + len\n\x1fp = 1\nlen = 2\n\x1f0=0.0 2=prelude 4=prelude \
    \x1ea = p + _p + len + q\n\x1fp = 1\n_p = 1\nlen = 2\n\x1fundefined 1\
    \x1eload(':a.star', 'x', y = 'z')\nw = x + y\n\x1f\x1f4=0.1 6=0.2 11=0.0 13=0.1 15=0.2 \
    \x1efor i in r: i += r[i:len(*r)]\nr = 0\n\x1f\x1f1=0.0 3=0.1 5=0.0 7=0.1 9=0.0 11=outermost 14=0.1 18=0.1 ";

/// The labels of `//:a.star` and of the prelude `//:p.star`.
fn two(alloc: Global) -> Result<Files, Fail> {
    let mut files = BTreeMap::new(alloc);
    for name in ["//:a.star", "//:p.star"] {
        files.insert(Label::read(alloc, name, "")?, String::new(alloc))?;
    }
    Ok(Files::new(alloc, files)?)
}

/// The tokens below 64 that have spots, with these; or the line of the first undefined name.
fn shown(alloc: Global, answer: &Result<Program<'_>, ScopeFault>) -> Result<String, AllocError> {
    let program = match answer {
        Ok(program) => program,
        Err(ScopeFault::Undefined { line }) => return format!(in alloc; "undefined {line}"),
        Err(_) => return String::from_str(alloc, "another fault"),
    };
    let mut out = String::new(alloc);
    for token in 0..64usize {
        let Some(spot) = program.spot(token) else {
            continue;
        };
        let word = match spot {
            Spot::Frame { up, slot } => format!(in alloc; "{token}={up}.{slot} ")?,
            Spot::Prelude => format!(in alloc; "{token}=prelude ")?,
            Spot::Outermost => format!(in alloc; "{token}=outermost ")?,
        };
        out.push_str(word.as_str())?;
    }
    Ok(out)
}

/// The spots of the names of a file with this tree that sees this prelude.
fn shown_by<'t>(
    rt: &impl Abort,
    alloc: Global,
    tree: &'t Tree,
    seen: Option<&Prelude<'t>>,
) -> Result<String, Fail> {
    let files = two(alloc)?;
    assert!(rt; 0 < files.len());
    let language = Language::of(alloc, Dialect::Core);
    Ok(shown(alloc, &resolve(alloc, &files, 0, tree, seen, &language))?)
}

/// Asserts that the names of a row's text are placed as the row says.
fn check(rt: &impl Abort, alloc: Global, cells: &[&str]) -> Result<(), Fail> {
    let [text, outside, wanted] = cells else {
        return Ok(());
    };
    let trees = [parse(alloc, outside)?, parse(alloc, text)?];
    let [first, tree] = &trees;
    let prelude = Prelude::new(alloc, 1, Some(first))?;
    let seen = if outside.is_empty() {
        None
    } else {
        Some(&prelude)
    };
    let found = shown_by(rt, alloc, tree, seen)?;
    reads!(rt; found.as_str(), *wanted, text);
    Ok(())
}

#[test]
fn places_names(rt: HostRuntime) -> Result<(), Fail> {
    spots_lead::<u8>();
    let mut rows = 0u32;
    for row in ROWS.split('\x1e').skip(1) {
        let cells: Vec<&str> = row.split('\x1f').collect(rt.alloc())?;
        check(&rt, rt.alloc(), cells.as_slice())?;
        rows = u32::saturating_add(rows, 1);
    }
    holds!(&rt; rows == 16);
    Ok(())
}
