//! Tests of `Text`: its copies share the bytes.

use star_checks::{holds, reads};
use star_text::Text;
use std::hash::{DefaultHasher, Hash, Hasher};
use std::test::Fail;

fn hash_of(text: &Text) -> u64 {
    let mut state = DefaultHasher::new();
    text.hash(&mut state);
    state.finish()
}

#[test]
fn text_of_a_string(rt: HostRuntime) -> Result<(), Fail> {
    let alloc = rt.alloc();
    let text = Text::new(alloc, "aé")?;
    reads!(&rt; text.as_str(), "aé");
    let copy = text.share()?;
    holds!(&rt; text == copy);
    holds!(&rt; hash_of(&text) == hash_of(&copy));
    drop(text);
    reads!(&rt; copy.as_str(), "aé");
    let text = Text::of(String::from_str(alloc, "b")?)?;
    reads!(&rt; text.as_str(), "b");
    holds!(&rt; text != copy);
    Ok(())
}
