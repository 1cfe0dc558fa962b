//! `Spots`: the table from the number of a name's token to its spot.

ghost use Rattle.std.specs.Prelude.{◌≡◌, [], Option, Some, IfOk, OnOk, IfSome, slice_get};
ghost use Rattle.star_scope.specs.declared.spot.Spot.{Spot as OneSpot};
ghost use Rattle.star_scope.specs.Spots.{IsPutAt, Keeps, found, spot_at, spot_in};

use crate::spot::Spot;
use std::alloc::{AllocError, Global};
use std::marker::Model;

/// The number of entries for which a table has room before it has any: 2 KiB. A row that begins with a few bytes may
/// begin with bytes that another thread had allocated, and then grows in that thread's part of the memory.
const FIRST_ROOM: usize = 256;

/// The entry of the table for a token, in eight bytes. A spot with numbers too large for that is `Far`: it is in the
/// row `far`.
#[derive(Clone, Copy, Debug)]
enum Entry {
    Empty,
    Frame { up: u16, slot: u32 },
    Prelude,
    Outermost,
    Far,
}

/// The bindings of names, by the numbers of their tokens. A look-up takes constant time.
#[derive(Debug)]
pub struct Spots {
    entries: Vec<Entry>,
    /// The spots that no entry has room for, by the numbers of their tokens. No file that a person writes has one.
    far: Vec<Option<Spot>>,
}

impl Drop for Spots {
    fn drop(self) {
        let Spots { entries: _, far: _ } = self;
    }
}

impl Model for Spots {
    ghost use Rattle.std.specs.Prelude.{List, Option};
    ghost use Rattle.star_scope.specs.Spots.{spots_of};
    ghost use Rattle.star_scope.specs.declared.spot.Spot.{Spot as OneSpot};

    ghost Value = { List (Option OneSpot) };

    ghost view = { λ s. spots_of s.entries.items s.far.items };
}

/// The entry of a spot, if it has room for it; else `None`.
#[tactic(auto, unfolding(crate::specs::Spots::spot_in))]
fn entry_of(spot: Spot) -> Option<Entry>
    ensures { IfSome result (λ entry. (far : Option OneSpot) → spot_in entry far ≡ Some spot) }
{
    match spot {
        Spot::Frame { up, slot } => match (u16::try_from(up), u32::try_from(slot)) {
            (Ok(up), Ok(slot)) => Some(Entry::Frame { up, slot }),
            _ => None,
        },
        Spot::Prelude => Some(Entry::Prelude),
        Spot::Outermost => Some(Entry::Outermost),
    }
}

/// Puts a value at an index of a row. A row that is too short is filled up with empty values.
fn put_at<T: Copy>(row: &mut Vec<T>, at: usize, value: T, empty: T) -> Result<(), AllocError>
    ensures { OnOk result (IsPutAt row.old.items row.new.items at value empty) }
{
    if row.len() <= at {
        row.resize(at, empty)?;
        row.push(value)?;
    } else {
        row[at] = value;
    }
    Ok(())
}

/// The entry at a token; `Empty` after the last one.
#[inline(always)]
#[tactic(auto, unfolding(crate::specs::Spots::found, crate::specs::Spots::spot_in))]
fn entry_at(entries: &[Entry], token: usize) -> Entry
    ensures { (far : Option OneSpot) → spot_in result far ≡ found (slice_get entries.now token) far }
{
    match entries.get(token) {
        Some(entry) => *entry,
        None => Entry::Empty,
    }
}

/// The spot that a row has at a token.
#[inline(never)]
fn far_at(far: &[Option<Spot>], token: usize) -> Option<Spot>
    ensures { result ≡ spot_at far.now token }
{
    match far.get(token) {
        Some(spot) => *spot,
        None => None,
    }
}

/// The spot of an entry at a token, beside the row of the spots too large for entries.
#[inline(always)]
#[tactic(auto, unfolding(crate::specs::Spots::spot_in))]
fn spot_in(entry: Entry, far: &[Option<Spot>], token: usize) -> Option<Spot>
    ensures { result ≡ spot_in entry (spot_at far.now token) }
{
    match entry {
        Entry::Frame { up, slot } => Some(Spot::Frame {
            up: up as usize,
            slot: slot as usize,
        }),
        Entry::Prelude => Some(Spot::Prelude),
        Entry::Outermost => Some(Spot::Outermost),
        Entry::Far => far_at(far, token),
        Entry::Empty => None,
    }
}

impl Spots {
    /// A table with no spots.
    #[tactic(auto, unfolding(crate::specs::Spots::spots_of))]
    pub(crate) fn new(alloc: Global) -> Result<Spots, AllocError>
        ensures { IfOk result (λ spots. spots ≡ []) }
    {
        Ok(Spots {
            entries: Vec::with_capacity(alloc, FIRST_ROOM)?,
            far: Vec::new(alloc),
        })
    }

    /// Gives back the memory that the entries do not need.
    pub(crate) fn settle(&mut self)
        ensures { self.new ≡ self.old }
    {
        self.entries.shrink_to_fit();
    }

    /// The spot of the name at a token; `None` if the token is not a name, or the name is undefined.
    #[inline(always)]
    pub fn get(&self, token: usize) -> Option<Spot>
        ensures { result ≡ spot_at self.now token }
    {
        spot_in(
            entry_at(self.entries.as_slice(), token),
            self.far.as_slice(),
            token,
        )
    }

    /// Records the spot of the name at a token. Another spot at the same token is refused with `AllocError`. Only a
    /// tree that was made by hand gives two, since each name of a text has a token of its own.
    pub(crate) fn put(&mut self, token: usize, spot: Spot) -> Result<(), AllocError>
        ensures keeps { OnOk result (Keeps self.old self.new) }
        ensures put { OnOk result (spot_at self.new token ≡ Some spot) }
    {
        if let Some(there) = self.get(token) {
            return if there == spot {
                Ok(())
            } else {
                Err(AllocError)
            };
        }
        match entry_of(spot) {
            Some(entry) => put_at(&mut self.entries, token, entry, Entry::Empty),
            None => {
                put_at(&mut self.far, token, Some(spot), None)?;
                put_at(&mut self.entries, token, Entry::Far, Entry::Empty)
            }
        }
    }
}
