//! Types for the cause of a run's fault: the part of a program that had no value, and the values of its parts.
//!
//! `star_about` finds it, a module keeps it beside its fault, and `star_explain` puts it in words. No report depends on
//! these types.
#![tactic(auto)]

pub mod about;
