//! `Layout`: how JSON is laid out.

use star_text::Text;

/// How JSON is laid out: without any space, or in lines. A line begins with the first text, and then has the second one
/// for each bracket that is open there.
pub enum Layout {
    Compact,
    Lines(Text, Text),
}

impl Drop for Layout {
    fn drop(self) {
        match self {
            Layout::Compact => {}
            Layout::Lines(_, _) => {}
        }
    }
}
