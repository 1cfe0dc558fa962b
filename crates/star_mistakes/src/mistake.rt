//! `Mistake`: one thing that is wrong in a file: its place, the message, and help.

use crate::message::{Part, message};
use crate::place::Mark;
use std::alloc::{AllocError, Global};

/// A mistake in a file, with its place and a cure.
#[derive(Drop)]
pub struct Mistake {
    pub mark: Mark,
    /// The code of the report.
    pub code: &'static str,
    pub text: String,
    pub help: Option<String>,
}

impl Mistake {
    /// A mistake with this message, and with this help if that has parts.
    pub(crate) fn new(
        alloc: Global,
        mark: Mark,
        code: &'static str,
        text: &[Part],
        help: &[Part],
    ) -> Result<Mistake, AllocError> {
        let text = message(alloc, text)?;
        let help = if help.is_empty() {
            None
        } else {
            Some(message(alloc, help)?)
        };
        Ok(Mistake {
            mark,
            code,
            text,
            help,
        })
    }
}
