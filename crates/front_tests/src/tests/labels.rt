//! Tests of labels, with values from the environment, so that no compiler can fold them.

use star_checks::{holds, reads};
use star_label::error::LabelError;
use star_label::label::Label;
use star_label::segment::is_package;
use std::test::Fail;

/// Rows: a text, the package that it is read in, and its normal form, or `!` if it is not a label.
const TABLE: &str = "//:a||//:a;//:x.star||//:x.star;:x.star||//:x.star;//lib:x.star||//lib:x.star;\
    //lib/y:x.star||//lib/y:x.star;//a/b/c/d:e||//a/b/c/d:e;lib:x||!;//a//b:c||!;//:a/b||!;//a:..||!;\
    //:..||!;//:.||!;||!;:||!;//||!;//:||!;//lib||!;//lib:||!;:..||!;:.||!;:...||//:...;\
    //...:...||//...:...;//./a:b||!;//../a:b||!;//a/..:b||!;//a/.:b||!;//.a:b||//.a:b;//a.:.b||//a.:.b;\
    //..a:b||//..a:b;//-:-||//-:-;//_:_||//_:_;//A-Z.0_9:a||//A-Z.0_9:a;//a b:c||!;//a:b c||!; //a:b||!;\
    //a:b ||!;//é:a||!;//a:é||!;//a:b:c||!;:a:b||!;::||!;:a/b||!;/a:b||!;///a:b||!;//a/:b||!;\
    //a/b/:c||!;//:a\n||!;a||!;a.star||!;./a||!;@r//a:b||!;//a\\b:c||!;//a:b\t||!;//a,b:c||!;//a:b+c||!;\
    //a:b~||!;//~:a||!;//a:%41||!;:-||//:-;:_||//:_;:0||//:0;//0:0||//0:0;//lib:||!;//lib/x:x/y||!;\
    //:a|lib|//:a;//:x.star|lib|//:x.star;:x.star|lib|//lib:x.star;//lib:x.star|lib|//lib:x.star;\
    //lib/y:x.star|lib|//lib/y:x.star;//a/b/c/d:e|lib|//a/b/c/d:e;lib:x|lib|!;//a//b:c|lib|!;\
    //:a/b|lib|!;//a:..|lib|!;//:..|lib|!;//:.|lib|!;|lib|!;:|lib|!;//|lib|!;//:|lib|!;//lib|lib|!;\
    //lib:|lib|!;:..|lib|!;:.|lib|!;:...|lib|//lib:...;//...:...|lib|//...:...;//./a:b|lib|!;\
    //../a:b|lib|!;//a/..:b|lib|!;//a/.:b|lib|!;//.a:b|lib|//.a:b;//a.:.b|lib|//a.:.b;\
    //..a:b|lib|//..a:b;//-:-|lib|//-:-;//_:_|lib|//_:_;//A-Z.0_9:a|lib|//A-Z.0_9:a;//a b:c|lib|!;\
    //a:b c|lib|!; //a:b|lib|!;//a:b |lib|!;//é:a|lib|!;//a:é|lib|!;//a:b:c|lib|!;:a:b|lib|!;::|lib|!;\
    :a/b|lib|!;/a:b|lib|!;///a:b|lib|!;//a/:b|lib|!;//a/b/:c|lib|!;//:a\n|lib|!;a|lib|!;a.star|lib|!;\
    ./a|lib|!;@r//a:b|lib|!;//a\\b:c|lib|!;//a:b\t|lib|!;//a,b:c|lib|!;//a:b+c|lib|!;//a:b~|lib|!;\
    //~:a|lib|!;//a:%41|lib|!;:-|lib|//lib:-;:_|lib|//lib:_;:0|lib|//lib:0;//0:0|lib|//0:0;//lib:|lib|!;\
    //lib/x:x/y|lib|!;//:a|lib/x|//:a;//:x.star|lib/x|//:x.star;:x.star|lib/x|//lib/x:x.star;\
    //lib:x.star|lib/x|//lib:x.star;//lib/y:x.star|lib/x|//lib/y:x.star;//a/b/c/d:e|lib/x|//a/b/c/d:e;\
    lib:x|lib/x|!;//a//b:c|lib/x|!;//:a/b|lib/x|!;//a:..|lib/x|!;//:..|lib/x|!;//:.|lib/x|!;|lib/x|!;\
    :|lib/x|!;//|lib/x|!;//:|lib/x|!;//lib|lib/x|!;//lib:|lib/x|!;:..|lib/x|!;:.|lib/x|!;\
    :...|lib/x|//lib/x:...;//...:...|lib/x|//...:...;//./a:b|lib/x|!;//../a:b|lib/x|!;//a/..:b|lib/x|!;\
    //a/.:b|lib/x|!;//.a:b|lib/x|//.a:b;//a.:.b|lib/x|//a.:.b;//..a:b|lib/x|//..a:b;//-:-|lib/x|//-:-;\
    //_:_|lib/x|//_:_;//A-Z.0_9:a|lib/x|//A-Z.0_9:a;//a b:c|lib/x|!;//a:b c|lib/x|!; //a:b|lib/x|!;\
    //a:b |lib/x|!;//é:a|lib/x|!;//a:é|lib/x|!;//a:b:c|lib/x|!;:a:b|lib/x|!;::|lib/x|!;:a/b|lib/x|!;\
    /a:b|lib/x|!;///a:b|lib/x|!;//a/:b|lib/x|!;//a/b/:c|lib/x|!;//:a\n|lib/x|!;a|lib/x|!;a.star|lib/x|!;\
    ./a|lib/x|!;@r//a:b|lib/x|!;//a\\b:c|lib/x|!;//a:b\t|lib/x|!;//a,b:c|lib/x|!;//a:b+c|lib/x|!;\
    //a:b~|lib/x|!;//~:a|lib/x|!;//a:%41|lib/x|!;:-|lib/x|//lib/x:-;:_|lib/x|//lib/x:_;\
    :0|lib/x|//lib/x:0;//0:0|lib/x|//0:0;//lib:|lib/x|!;//lib/x:x/y|lib/x|!;//:a|a.b/-_|//:a;\
    //:x.star|a.b/-_|//:x.star;:x.star|a.b/-_|//a.b/-_:x.star;//lib:x.star|a.b/-_|//lib:x.star;\
    //lib/y:x.star|a.b/-_|//lib/y:x.star;//a/b/c/d:e|a.b/-_|//a/b/c/d:e;lib:x|a.b/-_|!;\
    //a//b:c|a.b/-_|!;//:a/b|a.b/-_|!;//a:..|a.b/-_|!;//:..|a.b/-_|!;//:.|a.b/-_|!;|a.b/-_|!;:|a.b/-_|!;\
    //|a.b/-_|!;//:|a.b/-_|!;//lib|a.b/-_|!;//lib:|a.b/-_|!;:..|a.b/-_|!;:.|a.b/-_|!;\
    :...|a.b/-_|//a.b/-_:...;//...:...|a.b/-_|//...:...;//./a:b|a.b/-_|!;//../a:b|a.b/-_|!;\
    //a/..:b|a.b/-_|!;//a/.:b|a.b/-_|!;//.a:b|a.b/-_|//.a:b;//a.:.b|a.b/-_|//a.:.b;\
    //..a:b|a.b/-_|//..a:b;//-:-|a.b/-_|//-:-;//_:_|a.b/-_|//_:_;//A-Z.0_9:a|a.b/-_|//A-Z.0_9:a;\
    //a b:c|a.b/-_|!;//a:b c|a.b/-_|!; //a:b|a.b/-_|!;//a:b |a.b/-_|!;//é:a|a.b/-_|!;//a:é|a.b/-_|!;\
    //a:b:c|a.b/-_|!;:a:b|a.b/-_|!;::|a.b/-_|!;:a/b|a.b/-_|!;/a:b|a.b/-_|!;///a:b|a.b/-_|!;\
    //a/:b|a.b/-_|!;//a/b/:c|a.b/-_|!;//:a\n|a.b/-_|!;a|a.b/-_|!;a.star|a.b/-_|!;./a|a.b/-_|!;\
    @r//a:b|a.b/-_|!;//a\\b:c|a.b/-_|!;//a:b\t|a.b/-_|!;//a,b:c|a.b/-_|!;//a:b+c|a.b/-_|!;\
    //a:b~|a.b/-_|!;//~:a|a.b/-_|!;//a:%41|a.b/-_|!;:-|a.b/-_|//a.b/-_:-;:_|a.b/-_|//a.b/-_:_;\
    :0|a.b/-_|//a.b/-_:0;//0:0|a.b/-_|//0:0;//lib:|a.b/-_|!;//lib/x:x/y|a.b/-_|!";

#[test]
fn reads_the_table(rt: HostRuntime) -> Result<(), Fail> {
    let alloc = rt.alloc();
    let mut rows = 0u32;
    for row in TABLE.split(';') {
        let Some((text, rest)) = row.split_once('|') else {
            continue;
        };
        let Some((package, wanted)) = rest.split_once('|') else {
            continue;
        };
        assert!(rt; is_package(package), "{package}");
        let label = Label::read(alloc, text, package);
        let found = match &label {
            Ok(label) => label.text(),
            Err(LabelError::BadLabel) => "!",
            Err(_) => "another fault",
        };
        reads!(&rt; found, wanted, text);
        rows = u32::saturating_add(rows, 1);
    }
    holds!(&rt; rows == 256);
    Ok(())
}

#[test]
fn has_a_package_and_a_text(rt: HostRuntime) -> Result<(), Fail> {
    let alloc = rt.alloc();
    assert!(rt; is_package("lib"));
    let label = Label::read(alloc, ":x.star", "lib")?;
    reads!(&rt; label.text(), "//lib:x.star");
    reads!(&rt; label.package(), "lib");
    let text = format!(in alloc; "{}", &label)?;
    reads!(&rt; text.as_str(), "//lib:x.star");
    Ok(())
}

#[test]
fn stands_at_folders(rt: HostRuntime) -> Result<(), Fail> {
    let alloc = rt.alloc();
    let deep = Label::at(alloc, &["lib", "a-b"], "b.star")?;
    reads!(&rt; deep.text(), "//lib/a-b:b.star");
    let top = Label::at(alloc, &[], "b.star")?;
    reads!(&rt; top.text(), "//:b.star");
    for (folder, name) in [
        ("lib", "x y.star"),
        ("..", "x"),
        ("a/b", "x"),
        ("", "x"),
        ("lib", ""),
    ] {
        let refused = Label::at(alloc, &[folder], name).err();
        holds!(&rt; refused == Some(LabelError::BadLabel), name);
    }
    Ok(())
}
