//! A test of the contents of keys. A dictionary whose keys have none at hand is searched by a walk, which shows only in
//! time.

use star_checks::holds;
use star_store::arena::{Arena, Homes};
use star_store::content::content;
use star_store::values::{Cell, Value, Values};
use star_text::Text;
use std::process::Abort;
use std::test::Fail;

/// A new cell. The arena has room.
fn made(rt: &impl Abort, arena: &mut Arena, cell: Cell) -> Result<Value, Fail> {
    assert!(rt; arena.len() < 1_000_000);
    Ok(arena.make(cell)?)
}

#[test]
fn a_key_has_its_content(rt: HostRuntime) -> Result<(), Fail> {
    let alloc = rt.alloc();
    let mut arena = Arena::new(alloc, 0);
    let word = Text::new(alloc, "a")?;
    let word = made(&rt, &mut arena, Cell::Text(word))?;
    let items = Vec::from_slice(alloc, &[word, Value::Int(-7)])?;
    let key = made(&rt, &mut arena, Cell::Tuple(Values::new(items)))?;
    let homes = Homes::new(alloc);
    for value in [word, key] {
        let found = content(alloc, &arena, &homes, value)?;
        holds!(&rt; found.is_some());
    }
    Ok(())
}
