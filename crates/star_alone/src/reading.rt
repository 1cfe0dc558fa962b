//! The reading of files by the caller's own thread.

ghost use Rattle.std.specs.Prelude.{◌≡◌, ◌+◌, ◌<◌, All, IfOk, IfSome, None, OnOk, Some, length};
ghost use Rattle.star_label.specs.Files.{text_at};
ghost use Rattle.star_plan.specs.Reading.{IsPrelude};
ghost use Rattle.star_scope.specs.Resolve.{outside_seen};
ghost use Rattle.star_reading.specs.Found.{HasFound, HasFoundWith, IsReadOf, IsRowOf, Within, left_of};
ghost use Rattle.star_reading.specs.Parsed.{IsParsed};
ghost use Rattle.star_reading.specs.Readings.{IsPlaceable, IsReadAs};

use star_dialect::Language;
use star_label::files::Files as Labels;
use star_lex::token::SyntaxFault;
use star_outcome::shelf::Shelf;
use star_parser::parse;
use star_reading::code::of_syntax;
use star_reading::files::prelude_over;
use star_reading::parses::Parsed;
use star_reading::reading::{Found, Read, Reads, resolved};
use star_scope::program::Prelude;
use star_tree::tree::Tree;
use std::alloc::{AllocError, Global};

/// Why files were not read.
#[derive(Clone, Copy, Debug, PartialEq, Eq)]
pub enum ReadError {
    /// An allocation failed.
    Memory,
    /// A cell had a tree already.
    Unpublished,
}

impl From<AllocError> for ReadError {
    fn from(_error: AllocError) -> ReadError {
        ReadError::Memory
    }
}

/// Cells for the trees of a run: one for each file, and the last for the prelude, whose tree is read once more for its
/// names. `Memory` where a growth is refused.
pub fn tree_cells(alloc: Global, files: &Labels) -> Result<Shelf<Tree>, AllocError>
    ensures { IfOk result (λ cells. length cells ≡ length files.now + 1) }
{
    Shelf::new(alloc, files.len() + 1)
}

/// Parses the text of a file, and keeps its tree in the cell at this place. `Unpublished` where the cell has one
/// already.
fn parsed_at<'t>(
    alloc: Global,
    files: &Labels,
    trees: &'t Shelf<Tree>,
    at: usize,
    n: usize,
) -> Result<Parsed<'t>, ReadError>
    requires file { n < length files.now }
    requires cell { at < length trees.now }
    ensures { IfOk result (IsParsed (text_at files.now n)) }
{
    let tree = match parse(alloc, files.text(n)) {
        Ok(tree) => tree,
        Err(SyntaxFault::Memory) => return Err(ReadError::Memory),
        Err(fault) => return Ok(Err(fault)),
    };
    let kept = Box::new(alloc, tree).map_err(AllocError::from)?;
    match trees.publish(at, kept) {
        Ok(note) => Ok(Ok(trees.seen(at, note))),
        Err(_) => Err(ReadError::Unpublished),
    }
}

/// The prelude. Its names are those of its tree, which is kept in the last cell. It has no names if its text does not
/// parse.
fn prelude_of<'t>(
    alloc: Global,
    files: &Labels,
    trees: &'t Shelf<Tree>,
    n: usize,
) -> Result<Prelude<'t>, ReadError>
    requires file { n < length files.now }
    requires cells { length trees.now ≡ length files.now + 1 }
    ensures prelude { IfOk result (λ p. IsPrelude files.now (Some n) (Some p)) }
    ensures file { IfOk result (λ p. p.file ≡ n) }
{
    match parsed_at(alloc, files, trees, files.len(), n)? {
        Ok(tree) => Ok(prelude_over(alloc, n, Some(tree))?),
        Err(_) => Ok(prelude_over(alloc, n, None)?),
    }
}

/// The prelude, where there is one.
fn block_of<'t>(
    alloc: Global,
    files: &Labels,
    trees: &'t Shelf<Tree>,
    prelude: Option<usize>,
) -> Result<Option<Prelude<'t>>, ReadError>
    requires prelude { IfSome prelude (λ n. n < length files.now) }
    requires cells { length trees.now ≡ length files.now + 1 }
    ensures prelude { IfOk result (IsPrelude files.now prelude) }
    ensures file { IfOk result (λ block. IfSome block (λ p. p.file < length files.now)) }
{
    match prelude {
        Some(n) => Ok(Some(prelude_of(alloc, files, trees, n)?)),
        None => Ok(None),
    }
}

/// All that is needed to read files: their texts, the cells of their trees, the prelude, and the roots.
#[derive(Drop)]
struct Reader<'s, 't> {
    alloc: Global,
    files: &'s Labels,
    trees: &'t Shelf<Tree>,
    prelude: Option<&'s Prelude<'t>>,
    language: &'s Language,
    roots: &'s [usize],
}

impl<'s, 't> Reader<'s, 't> {
    /// Reads and resolves a file.
    fn read(&self, n: usize) -> Result<Read<'t>, ReadError>
        requires file { n < length self.now.files.now }
        requires cells { length self.now.trees.now ≡ length self.now.files.now + 1 }
        ensures { IfOk result (IsReadAs self.now.files.now (outside_seen self.now.prelude self.now.language) n) }
    {
        match parsed_at(self.alloc, self.files, self.trees, n, n)? {
            Ok(tree) => Ok(resolved(self.alloc, self.files, self.prelude, self.language, n, tree)?),
            Err(fault) => match of_syntax(fault) {
                Some(fault) => Ok(Read::Fault(fault)),
                None => unreachable!(),
            },
        }
    }

    /// Reads the next file that was found, unless it was read.
    fn read_next(&self, found: &mut Found<'t>, n: usize) -> Result<(), ReadError>
        requires file { n < length self.now.files.now }
        requires cells { length self.now.trees.now ≡ length self.now.files.now + 1 }
        requires prelude { IfSome self.now.prelude (λ p. p.now.file < length self.now.files.now) }
        requires found { HasFoundWith self.now.files.now (outside_seen self.now.prelude self.now.language)
            self.now.roots.now found.old
            n }
        ensures found { OnOk result
            (HasFound self.now.files.now (outside_seen self.now.prelude self.now.language) self.now.roots.now
            found.new) }
        ensures left { OnOk result (left_of found.new.marks.items found.new.todo.items
            ≡ left_of found.old.marks.items found.old.todo.items) }
    {
        if found.is_read(n) {
            return Ok(());
        }
        let read = self.read(n)?;
        found.add(n, read)?;
        Ok(())
    }

    /// Reads all files that the roots reach: the roots, and the loads of all that is read. Each turn takes a file that
    /// was found, and each file is found at most once.
    fn read_all(&self) -> Result<Vec<Option<Read<'t>>>, ReadError>
        requires roots { Within self.now.files.now self.now.roots.now }
        requires cells { length self.now.trees.now ≡ length self.now.files.now + 1 }
        requires prelude { IfSome self.now.prelude (λ p. p.now.file < length self.now.files.now) }
        ensures { IfOk result (λ row. IsRowOf self.now.files.now (outside_seen self.now.prelude self.now.language)
            self.now.roots.now row.items) }
    {
        let mut found = Found::from_roots(self.alloc, self.files, self.roots)?;
        while let Some(n) = found.next() {
            self.read_next(&mut found, n)?;
        }
        let Found { reads, .. } = found;
        Ok(reads)
    }
}

/// Reads the files by this prelude.
fn read_by<'s, 't>(
    alloc: Global,
    files: &'s Labels,
    trees: &'t Shelf<Tree>,
    prelude: Option<&'s Prelude<'t>>,
    language: &'s Language,
    roots: &'s [usize],
) -> Result<Vec<Option<Read<'t>>>, ReadError>
    requires roots { Within files.now roots.now }
    requires cells { length trees.now ≡ length files.now + 1 }
    requires prelude { IfSome prelude (λ p. p.now.file < length files.now) }
    ensures { IfOk result (λ row. IsRowOf files.now (outside_seen prelude.entry language.entry) roots.now row.items) }
{
    let reader = Reader {
        alloc,
        files,
        trees,
        prelude,
        language,
        roots,
    };
    reader.read_all()
}

/// Reads all files that the roots reach, one after another: of each its program in a language, or its static fault. The
/// trees have cells of their own (`tree_cells`). `Memory` where a growth is refused, `Unpublished` where a cell has a
/// tree already.
pub fn read_alone<'t>(
    alloc: Global,
    files: &Labels,
    trees: &'t Shelf<Tree>,
    roots: &[usize],
    prelude: Option<usize>,
    language: &Language,
) -> Result<Reads<'t>, ReadError>
    requires roots { Within files.now roots.now }
    requires cells { length trees.now ≡ length files.now + 1 }
    requires prelude { IfSome prelude (λ n. n < length files.now) }
    ensures read { IfOk result (λ reads. IsReadOf files.now roots.now prelude language.now reads.all.items) }
    ensures placeable { IfOk result (λ reads. All IsPlaceable reads.all.items) }
{
    let block = block_of(alloc, files, trees, prelude)?;
    let all = read_by(alloc, files, trees, block.as_ref(), language, roots)?;
    let others = Vec::new(alloc);
    Ok(Reads { all, others })
}
