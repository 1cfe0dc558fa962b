//! Files of a folder that are not there, and the label beside each that was probably meant.

use star_folder::folder::Kind;
use star_label::label::Label;
use star_mistakes::near::nearest;
use star_mistakes::place::shown;
use star_words::pattern::{Apart, Listing};
use std::alloc::{AllocError, Global};
use std::collections::BTreeMap;

/// The name of a label: the text after its colon.
fn name_of(label: &Label) -> &str {
    match label.text().split_once(':') {
        Some((_, name)) => name,
        None => "",
    }
}

/// The names of a folder's entries but for its folders.
fn names_of(alloc: Global, entries: &BTreeMap<String, Kind>) -> Result<Vec<&str>, AllocError> {
    let mut names = Vec::new(alloc);
    for (name, kind) in entries.iter() {
        if *kind != Kind::Folder {
            names.push(name.as_str())?;
        }
    }
    Ok(names)
}

/// The kind of the entry with this name.
fn kind_of(entries: &BTreeMap<String, Kind>, name: &str) -> Option<Kind> {
    for (other, kind) in entries.iter() {
        if other.as_str() == name {
            return Some(*kind);
        }
    }
    None
}

/// Why an entry of this kind is not the file of a label; `None` if it is a file.
fn about_kind(kind: Kind) -> Option<&'static str> {
    match kind {
        Kind::File => None,
        Kind::Folder => Some("is a folder\n"),
        Kind::Other => Some("is a link that leads to no file, or it is no file\n"),
    }
}

/// Why the file of a label is not read, by where its path leads.
fn about_place(why: Apart) -> &'static str {
    match why {
        Apart::Outside => {
            "is not read: a link leads out of the folder\n  help: `--links=anywhere` follows it\n"
        }
        Apart::Linked => {
            "is not read: a link leads there\n  help: without `--links=none` links in the folder are followed\n"
        }
        Apart::System => "is not read: it is below /proc\n",
    }
}

/// Lines about a label that has no file, by where its path leads.
pub fn about_apart(alloc: Global, label: &Label, why: Apart) -> Result<String, AllocError> {
    let label = shown(alloc, label.text())?;
    let about = about_place(why);
    format!(in alloc; "  `{label}` {about}")
}

/// The name of an entry that a name was probably meant for.
fn near_name(
    alloc: Global,
    entries: &BTreeMap<String, Kind>,
    name: &str,
) -> Result<Option<String>, AllocError> {
    let names = names_of(alloc, entries)?;
    match nearest(alloc, name, names.as_slice())? {
        Some(near) => Ok(Some(String::from_str(alloc, near)?)),
        None => Ok(None),
    }
}

/// Lines about a folder that could not be listed: that it may not be, if the folder around it has it, else that it may
/// not be there.
fn about_folder<L: Listing>(
    alloc: Global,
    folder: &mut L,
    package: &str,
) -> Result<String, AllocError> {
    let (outer, name) = package.rsplit_once('/').unwrap_or(("", package));
    let is_there = match folder.entries(alloc, outer) {
        Ok(entries) => kind_of(&entries, name) == Some(Kind::Folder),
        Err(_) => false,
    };
    let package = shown(alloc, package)?;
    if is_there {
        format!(in alloc; "  the folder `{package}` may not be read\n")
    } else {
        format!(in alloc; "  there is no folder `{package}`, or it may not be listed\n")
    }
}

/// Lines about the file of a label: that there is none, or why it is not read, or the label of the file beside it that
/// was probably meant. None if the file is there.
pub fn about_file<L: Listing>(
    alloc: Global,
    folder: &mut L,
    label: &Label,
) -> Result<Option<String>, AllocError> {
    if let Some(why) = folder.apart(alloc, label) {
        return Ok(Some(about_apart(alloc, label, why)?));
    }
    let package = label.package();
    let name = name_of(label);
    let Ok(entries) = folder.entries(alloc, package) else {
        return Ok(Some(about_folder(alloc, folder, package)?));
    };
    let label_text = shown(alloc, label.text())?;
    if let Some(kind) = kind_of(&entries, name) {
        return match about_kind(kind) {
            Some(about) => Ok(Some(format!(in alloc; "  `{label_text}` {about}")?)),
            None => Ok(None),
        };
    }
    let mut all = format!(in alloc; "  there is no file `{label_text}`\n")?;
    if let Some(near) = near_name(alloc, &entries, name)? {
        write!(all, "  help: did you mean `//{package}:{near}`?\n")?;
    }
    Ok(Some(all))
}

/// The label that a text is. `None` for another text.
fn label_in(alloc: Global, text: &str) -> Option<Label> {
    Label::read(alloc, text, "").ok()
}

/// Lines about the first of some labels whose file is not there. Empty if each is there.
pub fn about_labels<L: Listing>(
    alloc: Global,
    folder: &mut L,
    labels: &[String],
) -> Result<String, AllocError> {
    for text in labels {
        let Some(label) = label_in(alloc, text.as_str()) else {
            continue;
        };
        if let Some(about) = about_file(alloc, folder, &label)? {
            return Ok(about);
        }
    }
    Ok(String::new(alloc))
}
