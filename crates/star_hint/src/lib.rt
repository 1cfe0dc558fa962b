//! The lines on standard error that tell a person the cause of a refusal: the word, the key or the file, and the label
//! that was probably meant.
//!
//! A refusal (`star_bundle::error::ServeError`) is a bare reason, which the program says in one line. If a person wants
//! more (`--explain`), the refused input is looked at once more, from its beginning:
//!
//! - `bundle::about_bundle`: the bytes of a bundle, and the words of the command line;
//! - `folder::about_folder`: a folder, and the words;
//! - `words::about_words`: the words, if the files are known;
//! - `missing::about_file`, `missing::about_labels`: files of a folder that are not there.
//!
//! Each returns lines, or an empty text if no more is known than the reason. Begin at `bundle.rt`, from its end. It has
//! no public types of its own.
//!
//! No report rests on any of this. It is proved to be safe and to end. `tests/refusals` has its texts.
#![tactic(auto)]

pub mod bundle;
pub mod folder;
pub mod missing;
pub mod words;
