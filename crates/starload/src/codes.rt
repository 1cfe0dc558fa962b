//! `--explain-code`: prints the page of a code of a fault.

use star_explain::pages::{PAGES, Page};
use std::io;

/// Prints the page of a code, or all pages where the word is `all`: whether there is one.
pub fn explain(rt: &HostRuntime, word: &str) -> io::Result<bool> {
    let mut found = false;
    for page in &PAGES {
        if word == page.code || word == "all" {
            say(rt, page)?;
            found = true;
        }
    }
    Ok(found)
}

/// Prints a page.
fn say(rt: &HostRuntime, page: &Page) -> io::Result<()> {
    println!(rt; "## {}\n\n{}\n", page.code, page.means)?;
    println!(rt; "{}\n\n{}\n", page.program, page.cure)
}
