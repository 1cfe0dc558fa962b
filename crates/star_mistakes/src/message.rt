//! Messages, joined from their parts.

use crate::place::push_shown;
use std::alloc::{AllocError, Global};

/// A part of a message.
#[derive(Clone, Copy)]
pub enum Part<'a> {
    /// A text that is used as it is.
    Plain(&'a str),
    /// A word of a file, in its form for a message.
    Shown(&'a str),
    Number(usize),
}

/// Writes a message.
pub fn push_message(all: &mut String, parts: &[Part]) -> Result<(), AllocError> {
    for part in parts {
        match *part {
            Part::Plain(text) => all.push_str(text)?,
            Part::Shown(word) => push_shown(all, word)?,
            Part::Number(number) => write!(all, "{number}")?,
        }
    }
    Ok(())
}

/// The text of a message.
pub fn message(alloc: Global, parts: &[Part]) -> Result<String, AllocError> {
    let mut all = String::new(alloc);
    push_message(&mut all, parts)?;
    Ok(all)
}
