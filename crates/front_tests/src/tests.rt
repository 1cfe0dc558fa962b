//! Tests of all parts that read files, a module for each.

mod editor;
mod folder;
mod frames;
mod keys;
mod labels;
mod names;
mod rows;
mod text;
mod tokens;
mod words;
