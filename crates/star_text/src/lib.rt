//! The text of a name or of a string, shared by all that hold it.
//!
//! - `Text` is a string that is UTF-8 by its type. A copy (`Text::share`) counts one more holder and copies no bytes,
//!   so a name of a tree, a string on the heap and the key of a dictionary may be one text.
//!
//! A copy equals its original; `==` and hashing go by the bytes. Trees (`star_tree`) and heap objects (`star_store`)
//! are made of it.
#![tactic(auto)]

ghost use Rattle.std.specs.Prelude.{◌≡◌, IfOk, nat_eq, string_bytes};
ghost use Rattle.std.specs.Cmp.{partial_equiv_from_equiv};
ghost use Rattle.std.specs.Cmp.Lexicographic.{pointwise, nat_list_eq_equiv};
ghost use Rattle.std.specs.Cmp.Rules.{hashing};
ghost use Rattle.std.specs.Hash as fed;
ghost use Rattle.std.proofs.Common.{rules};

use std::alloc::{AllocError, Global};
use std::hash::{Hash, Hasher};
use std::marker::Model;
use std::sync::ArcStr;

/// A string whose copies share its bytes. It is UTF-8 by its type. Contracts see it as its list of bytes.
#[derive(Debug)]
pub struct Text {
    inner: ArcStr,
}

impl Drop for Text {
    fn drop(self) {
        let Text { inner: _ } = self;
    }
}

impl Model for Text {
    ghost use Rattle.std.specs.Prelude.{List, ℕ};
    ghost use Rattle.std.specs.Arc.{arc_str_bytes};

    ghost Value = { List ℕ };

    ghost view = { λ text. arc_str_bytes text.inner };
}

impl Text {
    /// A text with a copy of these bytes. The error: an allocation failed.
    pub fn new(alloc: Global, text: &str) -> Result<Text, AllocError>
        ensures { IfOk result (λ made. made ≡ text.now) }
    {
        Ok(Text {
            inner: ArcStr::from_str(alloc, text)?,
        })
    }

    /// A text with the bytes of a `String`, which are not copied. The error: an allocation failed.
    pub fn of(text: String) -> Result<Text, AllocError>
        ensures { IfOk result (λ made. made ≡ string_bytes text) }
    {
        Ok(Text {
            inner: ArcStr::from_string(text)?,
        })
    }

    /// The same text, with the bytes shared.
    pub fn share(&self) -> Result<Text, AllocError>
        ensures { IfOk result (λ made. made ≡ self.now) }
    {
        Ok(Text {
            inner: self.inner.clone()?,
        })
    }

    /// The bytes of the text, borrowed.
    pub fn as_str(&self) -> &str
        ensures { result.now ≡ self.now }
    {
        self.inner.as_str()
    }
}

impl PartialEq for Text {
    ghost eq = { λ x y. pointwise nat_eq x y };

    ghost laws = { partial_equiv_from_equiv nat_list_eq_equiv };

    fn eq(&self, other: &Text) -> bool {
        self.as_str() == other.as_str()
    }
}

impl Eq for Text {
    ghost laws = { nat_list_eq_equiv };
}

impl Hash for Text {
    ghost hash_input = { λ text. fed.str text };

    ghost respects_eq = { Prim.search (hashing, rules) };

    fn hash<H: Hasher>(&self, state: &mut H) {
        self.as_str().hash(state);
    }
}
