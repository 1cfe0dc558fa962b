//! The evaluated arguments of a call.

use sqlite_items::Items;
use star_store::values::{Value, Values};
use star_text::Text;

/// The value of a keyword argument; its key is there already if it came by `**`.
#[derive(Drop)]
pub struct KeywordArgument {
    pub name: Text,
    pub key: Option<Value>,
    pub value: Value,
}

/// The evaluated arguments of a call: the positional values, and the keyword ones.
#[derive(Drop)]
pub struct Arguments {
    pub positional: Values,
    pub named: Items<KeywordArgument>,
}
