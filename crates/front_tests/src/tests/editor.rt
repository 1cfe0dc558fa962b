//! Tests of what an editor asks about one text.

use star_checks::{holds, reads};
use star_dialect::{Dialect, Language};
use star_editor::context::{Call, Context, call_at, context_at};
use star_editor::index::Index;
use star_editor::mention::Mention;
use star_editor::navigation::{Definition, RenameError};
use star_text::Text;
use std::alloc::{AllocError, Global};
use std::process::Abort;
use std::test::Fail;

/// A file with each kind of name.
const TEXT: &str = r#"load(":a.star", "one", two = "deux")
N, M = 1, 2
def area(width, height = N,
         *args, **kw):
    """The area."""
    scale = one(width)
    def inner(x):
        return [x * y for y in range(height) if y]
    return inner(scale).total
area(1, height = two)
size = lambda w: w + missing
"#;

fn index_of(alloc: Global, text: &str) -> Result<Index, AllocError> {
    let language = Language::of(alloc, Dialect::Core);
    Index::of(alloc, Text::new(alloc, text)?, None, &language)
}

/// Where the first of these words stands.
fn place_of(words: &str) -> usize {
    TEXT.find(words).unwrap_or(0)
}

fn mention_of(rt: &impl Abort, index: &Index, words: &str) -> Mention {
    index.mention_at(place_of(words)).expect(rt, "no mention")
}

/// Where a mention is defined: a byte, a loaded name, or a word.
fn definition_of(alloc: Global, index: &Index, mention: Mention) -> Result<String, AllocError> {
    match index.definition(mention) {
        Some(Definition::Here(span)) => format!(in alloc; "{}", span.start),
        Some(Definition::Loaded(loaded)) => {
            format!(in alloc; "{}%{}", loaded.label.as_str(), loaded.name.as_str())
        }
        Some(Definition::Prelude(name)) => format!(in alloc; "prelude.{name}"),
        Some(Definition::BuiltIn(name)) => format!(in alloc; "built_in.{name}"),
        None => String::from_str(alloc, "none"),
    }
}

/// All mentions, each with its definition.
fn definitions_of(alloc: Global, index: &Index) -> Result<String, AllocError> {
    let mut out = String::new(alloc);
    for mention in index.mentions() {
        let word = index.written(mention.span);
        let definition = definition_of(alloc, index, *mention)?;
        write!(&mut out, "{word}={definition} ")?;
    }
    Ok(out)
}

#[test]
fn each_name_has_its_definition(rt: HostRuntime) -> Result<(), Fail> {
    let index = index_of(rt.alloc(), TEXT)?;
    reads!(&rt; definitions_of(rt.alloc(), &index)?.as_str(), "\
        :a.star=none one=:a.star%one two=:a.star%deux deux=:a.star%deux N=37 M=40 area=53 width=58 height=65 N=37 \
        args=87 kw=95 scale=124 one=:a.star%one width=58 inner=151 x=157 x=157 y=187 y=187 range=built_in.range \
        height=65 y=187 inner=151 scale=124 total=none area=53 height=65 two=:a.star%deux size=264 w=278 w=278 \
        missing=none ");
    holds!(&rt; !index_of(rt.alloc(), "def f(")?.has_tree());
    Ok(())
}

/// The changes of a rename, or its error.
fn renamed(
    alloc: Global,
    index: &Index,
    mention: Mention,
    name: &str,
) -> Result<String, AllocError> {
    let mut out = String::new(alloc);
    match index.rename(alloc, mention, name) {
        Ok(edits) => {
            for edit in &edits {
                write!(
                    &mut out,
                    "{}-{}:{} ",
                    edit.span.start,
                    edit.span.end,
                    edit.text.as_str()
                )?;
            }
        }
        Err(RenameError::Memory) => return Err(AllocError),
        Err(error) => write!(&mut out, "{error}")?,
    }
    Ok(out)
}

#[test]
fn names_are_changed_where_they_are_named(rt: HostRuntime) -> Result<(), Fail> {
    let index = index_of(rt.alloc(), TEXT)?;
    for (words, name, want) in [
        ("one(", "eins", "16-21:eins = \"one\" 132-135:eins "),
        ("height", "tall", "65-71:tall 198-204:tall 250-256:tall "),
        ("height", "for", "not a name"),
        ("height", "one", "the name is used in this file"),
        ("range", "rows", "no variable of this file stands here"),
    ] {
        let mention = mention_of(&rt, &index, words);
        reads!(&rt; renamed(rt.alloc(), &index, mention, name)?.as_str(), want, words);
    }
    let mention = mention_of(&rt, &index, "y for");
    holds!(&rt; index.references(rt.alloc(), mention)?.len() == 3);
    Ok(())
}

/// The symbols of an index, and the signature of its last function.
fn outline_of(alloc: Global, index: &Index) -> Result<String, AllocError> {
    let mut out = String::new(alloc);
    for symbol in index.symbols() {
        write!(
            &mut out,
            "{}{:?}.{} ",
            symbol.depth,
            symbol.kind,
            index.written(symbol.name)
        )?;
    }
    for function in index.functions() {
        out.push_str(index.signature(alloc, function)?.as_str())?;
        if let Some(description) = &function.description {
            write!(&mut out, " {}", description.as_str())?;
        }
        out.push(';')?;
    }
    Ok(out)
}

#[test]
fn symbols_and_signatures(rt: HostRuntime) -> Result<(), Fail> {
    let index = index_of(rt.alloc(), TEXT)?;
    reads!(&rt; outline_of(rt.alloc(), &index)?.as_str(), "\
        0Loaded.one 0Loaded.two 0Global.N 0Global.M 0Function.area 1Function.inner 0Global.size \
        def inner(x);def area(width, height = N, *args, **kw) The area.;");
    let area = index.global("area").expect(&rt, "no global");
    holds!(&rt; index.function(area).is_some() && index.global("one").is_none());
    holds!(&rt; index.loaded().len() == 2 && index.label_at(8).is_some());
    Ok(())
}

#[test]
fn names_that_can_be_read(rt: HostRuntime) -> Result<(), Fail> {
    let (index, prelude) = (
        index_of(rt.alloc(), TEXT)?,
        index_of(rt.alloc(), "M = 1\nmore = 2\n")?,
    );
    let mut out = String::new(rt.alloc());
    for known in &index.names_at(
        rt.alloc(),
        place_of("if y"),
        Some(&prelude),
        &["None", "one"],
    )? {
        write!(&mut out, "{}:{:?} ", known.name, known.kind)?;
    }
    reads!(&rt; out.as_str(), "\
        y:Variable x:Parameter width:Parameter height:Parameter args:Parameter kw:Parameter scale:Variable \
        inner:Function one:Loaded two:Loaded N:Variable M:Variable area:Function size:Variable more:Prelude \
        None:BuiltIn ");
    let variable = index.variable_at(rt.alloc(), "x", place_of("if y"))?;
    holds!(&rt; variable.is_some());
    Ok(())
}

/// What is being written at the end of a text, with the call around it.
fn context_of(alloc: Global, text: &str) -> Result<String, AllocError> {
    let mut out = match context_at(alloc, text, text.len())? {
        Context::Label { prefix } => format!(in alloc; "label {}", prefix.start)?,
        Context::LoadedName { label, prefix } => {
            format!(in alloc; "loaded {} {}", label.as_str(), prefix.start)?
        }
        Context::Attribute { of, prefix } => format!(in alloc;
            "attribute {of:?} {}",
            prefix.start
        )?,
        Context::Name { prefix } => format!(in alloc; "name {}", prefix.start)?,
        Context::Nothing => String::from_str(alloc, "nothing")?,
    };
    if let Some(
        Call {
            callee,
            argument,
            keyword,
            ..
        },
    ) = call_at(alloc, text, text.len())?
    {
        write!(
            &mut out,
            ", call {} {argument} {}",
            callee.start,
            keyword.is_some()
        )?;
    }
    Ok(out)
}

#[test]
fn what_is_being_written(rt: HostRuntime) -> Result<(), Fail> {
    for (text, want) in [
        ("load(\"//a", "label 6"),
        ("load(\":b\", \"c\", d = \"e", "loaded :b 21"),
        ("x = \"abc", "nothing"),
        ("x = 'a\ny = fo", "name 11"),
        ("f(1, g(2), a = [1, (2, ", "name 23, call 0 2 true"),
        (
            "x.y(\"a\", \"b\".sp",
            "attribute Some(Text) 13, call 2 1 false",
        ),
        ("# no", "nothing"),
        ("def fo", "nothing"),
        ("def fo(a, b", "nothing"),
    ] {
        reads!(&rt; context_of(rt.alloc(), text)?.as_str(), want, text);
    }
    Ok(())
}
