//! The names that can be read at a place.

ghost use Rattle.std.specs.Prelude.{◌≡◌, Any, IfOk, IfSome};
ghost use Rattle.star_editor.specs.Meaning.{Binds};
ghost use Rattle.star_editor.specs.Views.{mentions_of};

use crate::index::{Index, Scope};
use crate::mention::{Binder, Role, Variable};
use std::alloc::{AllocError, Global};
use std::collections::BTreeSet;

/// What a name that can be read is.
#[derive(Clone, Copy, Debug, PartialEq, Eq)]
pub enum NameKind {
    Function,
    Parameter,
    /// Another variable of this file.
    Variable,
    Loaded,
    /// A global of the prelude.
    Prelude,
    /// A name of the outermost block.
    BuiltIn,
}

/// A name that can be read.
#[derive(Clone, Copy, Debug, PartialEq, Eq)]
pub struct KnownName<'a> {
    pub name: &'a str,
    pub kind: NameKind,
}

/// The names that were found, each once.
#[derive(Drop)]
struct KnownNames<'a> {
    told: BTreeSet<&'a str>,
    names: Vec<KnownName<'a>>,
}

impl<'a> KnownNames<'a> {
    fn add(&mut self, name: &'a str, kind: NameKind) -> Result<(), AllocError> {
        if self.told.insert(name)? {
            self.names.push(KnownName { name, kind })?;
        }
        Ok(())
    }

    /// Adds the names that a block of a file binds, all of this kind, or each of its own.
    fn add_block(
        &mut self,
        index: &'a Index,
        block: usize,
        kind: Option<NameKind>,
    ) -> Result<(), AllocError> {
        for mention in index.mentions() {
            match mention.role {
                Role::Bound { variable, by } if variable.block == block => {
                    let own = kind.unwrap_or(kind_of(by));
                    self.add(index.written(mention.span), own)?;
                }
                _ => {}
            }
        }
        Ok(())
    }
}

/// The kind of a name by what binds it.
fn kind_of(by: Binder) -> NameKind {
    match by {
        Binder::Function => NameKind::Function,
        Binder::Parameter => NameKind::Parameter,
        Binder::Target => NameKind::Variable,
        Binder::Load => NameKind::Loaded,
    }
}

impl Index {
    /// The blocks around a byte, the innermost first, without the file's.
    fn scopes_at(&self, alloc: Global, at: usize) -> Result<Vec<Scope>, AllocError> {
        let mut around = Vec::new(alloc);
        for scope in &self.found.scopes {
            if scope.span.start < at && at <= scope.span.end {
                around.push(*scope)?;
            }
        }
        around.sort_by_key(|scope| usize::MAX - scope.span.start)?;
        Ok(around)
    }

    /// The names that can be read at this byte, each once, those of inner blocks first: of the functions and
    /// comprehensions around it, of the file, of the prelude with this index, and these built-in ones.
    pub fn names_at<'a>(
        &'a self,
        alloc: Global,
        at: usize,
        prelude: Option<&'a Index>,
        built_in: &[&'a str],
    ) -> Result<Vec<KnownName<'a>>, AllocError> {
        let mut known = KnownNames {
            told: BTreeSet::new(alloc),
            names: Vec::new(alloc),
        };
        for scope in self.scopes_at(alloc, at)? {
            known.add_block(self, scope.block, None)?;
        }
        known.add_block(self, 0, None)?;
        if let Some(prelude) = prelude {
            known.add_block(prelude, 0, Some(NameKind::Prelude))?;
        }
        for name in built_in {
            known.add(*name, NameKind::BuiltIn)?;
        }
        Ok(known.names)
    }

    /// The variable of this file that a name means at this byte. The error: an allocation failed.
    pub fn variable_at(
        &self,
        alloc: Global,
        name: &str,
        at: usize,
    ) -> Result<Option<Variable>, AllocError>
        ensures { IfOk result (λ o. IfSome o (λ v. Any (λ m. Binds v m.role) (mentions_of self.now))) }
    {
        for scope in self.scopes_at(alloc, at)? {
            if let Some(variable) = self.bound_in(scope.block, name) {
                return Ok(Some(variable));
            }
        }
        Ok(self.bound_in(0, name))
    }

    /// The variable that a block binds under a name.
    fn bound_in(&self, block: usize, name: &str) -> Option<Variable>
        ensures { IfSome result (λ v. Any (λ m. Binds v m.role) (mentions_of self.now)) }
    {
        for mention in self.mentions() {
            match mention.role {
                Role::Bound { variable, .. }
                    if variable.block == block && self.written(mention.span) == name => {
                    return Some(variable);
                }
                _ => {}
            }
        }
        None
    }
}
