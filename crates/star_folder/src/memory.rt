//! A `Folder` in memory, for tests and for callers who have the files at hand.

ghost use Rattle.std.specs.Prelude.{◌≡◌, [], IfOk, IfErr, OnOk, map, string_bytes};
ghost use Rattle.star_label.specs.Label.{label_text};
ghost use Rattle.star_folder.specs.Folder.{entry_of};
ghost use Rattle.star_folder.specs.Memory.{bytes_among, contents_of, with_row, with_rows};

use crate::folder::{FRONT, Folder, FolderError, Kind};
use star_label::label::Label;
use std::alloc::{AllocError, Global};
use std::collections::BTreeMap;

/// An entry of a folder in memory.
#[derive(Clone, Copy, Debug)]
pub struct Row<'a> {
    /// The path of the folder that has it: empty for the top.
    pub path: &'a str,
    /// Its name.
    pub name: &'a str,
    /// Its kind: a file, a folder, or another.
    pub kind: Kind,
    /// The bytes of a file.
    pub bytes: &'a [u8],
}

/// A folder with just these entries. It says all that it holds, and no call of it fails.
#[derive(Drop)]
pub struct MemoryFolder<'a> {
    rows: &'a [Row<'a>],
}

impl<'a> MemoryFolder<'a> {
    ghost use Rattle.star_folder.specs.Memory.{rows_of};

    /// The folder with these entries.
    pub fn new(rows: &'a [Row<'a>]) -> Self
        ensures { rows_of result ≡ rows.now }
    {
        MemoryFolder { rows }
    }
}

impl<'a> Folder for MemoryFolder<'a> {
    ghost holds = { λ s. contents_of s.rows.now };

    ghost failed_listings = { λ s. 0 };

    ghost failed_reads = { λ s. 0 };

    fn list(&mut self, alloc: Global, path: &str) -> Result<BTreeMap<String, Kind>, FolderError> {
        entries_at(alloc, self.rows, path)
    }

    fn read(&mut self, alloc: Global, label: &Label) -> Result<Vec<u8>, FolderError> {
        let bytes = bytes_of(alloc, self.rows, label.text())?;
        Ok(Vec::from_slice(alloc, &bytes[..bytes.len().min(FRONT)])?)
    }
}

/// Puts an entry of the folder at a path among the others.
fn add_row(
    alloc: Global,
    entries: &mut BTreeMap<String, Kind>,
    path: &str,
    row: &Row<'_>,
) -> Result<(), FolderError>
    ensures entries { OnOk result (map entry_of entries.new.entries
        ≡ with_row path.now (map entry_of entries.old.entries) row.now) }
    ensures only { IfErr result (λ e. e ≡ FolderError.Memory) }
{
    if row.path != path {
        return Ok(());
    }
    let name = String::from_str(alloc, row.name)?;
    entries.insert(name, row.kind)?;
    Ok(())
}

/// The entries of the folder at a path.
fn entries_at(
    alloc: Global,
    rows: &[Row<'_>],
    path: &str,
) -> Result<BTreeMap<String, Kind>, FolderError>
    ensures entries { IfOk result (λ m. map entry_of m.entries ≡ with_rows path.now [] rows.now) }
    ensures only { IfErr result (λ e. e ≡ FolderError.Memory) }
{
    let mut entries = BTreeMap::new(alloc);
    for row in rows {
        add_row(alloc, &mut entries, path, row)?;
    }
    Ok(entries)
}

/// `//PATH:NAME`.
fn written(alloc: Global, path: &str, name: &str) -> Result<String, AllocError>
    ensures { IfOk result (λ t. string_bytes t ≡ label_text path.now name.now) }
{
    let mut text = String::from_str(alloc, "//")?;
    text.push_str(path)?;
    text.push(':')?;
    text.push_str(name)?;
    Ok(text)
}

/// The bytes of the file of a label.
fn bytes_of<'a>(alloc: Global, rows: &'a [Row<'a>], label: &str) -> Result<&'a [u8], FolderError>
    ensures bytes { IfOk result (λ bytes. bytes.now ≡ bytes_among label.now rows.now) }
    ensures only { IfErr result (λ e. e ≡ FolderError.Memory) }
{
    for row in rows {
        let text = written(alloc, row.path, row.name)?;
        if text.as_str() == label {
            return Ok(row.bytes);
        }
    }
    Ok(&[])
}
