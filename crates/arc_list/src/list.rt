ghost use Rattle.std.specs.Prelude.{◌≡◌, ◌<◌, ◌≤◌, ◌+◌, ◌^◌, ◌++◌, [], ◌∷◌, IfOk, IfSome, OnOk, OnErr, IfNone, length};
ghost use Rattle.std.specs.Prelude.{map};
ghost use Rattle.std.specs.Arc.{arc_value};
ghost use mathlib.Core.List.{IsPrefix};

use std::alloc::{AllocError, Global};
use std::marker::Model;
use std::sync::Arc;

// how many entries a full piece has
const PIECE: usize = 256;

/// A list that grows at its end. Its entries are in pieces of 256, which it shares with the lists that
/// [`share`](ArcList::share) made of it. The entries after the last full piece are fewer than 256, and each list has
/// its own pointers to them.
///
/// It takes eight bytes of memory for each entry, as a vector does.
#[derive(Drop)]
pub struct ArcList<T> {
    alloc: Global,
    full: Vec<Arc<Vec<Arc<T>>>>,
    last: Vec<Arc<T>>,
    count: usize,
}

impl<T> Model for ArcList<T> {
    ghost use Rattle.std.specs.Prelude.{List, map};
    ghost use Rattle.std.specs.Arc.{arc_value};
    ghost use Rattle.arc_list.specs.Pieces.{values_in, joined, ArePieces};

    ghost Value = { List T };

    ghost view = { λ s. joined (λ p. values_in arc_value (arc_value p)) s.full.items (map arc_value s.last.items) };

    ghost invariant = { λ s. ArePieces (λ p. values_in arc_value (arc_value p)) s.full.items
        (map arc_value s.last.items) s.count };
}

// Adds one owner more of each of these entries after the others.
fn add_shared<T: Drop>(list: &mut Vec<Arc<T>>, entries: &[Arc<T>]) -> Result<(), AllocError>
    ensures { OnOk result (map arc_value list.new.items ≡ map arc_value list.old.items ++ map arc_value entries.now) }
{
    for entry in entries {
        list.push(Arc::try_clone(entry)?)?;
    }
    Ok(())
}

// Returns the same pieces, each with one owner more.
fn shared_pieces<T: Drop>(
    alloc: Global,
    pieces: &[Arc<Vec<Arc<T>>>],
) -> Result<Vec<Arc<Vec<Arc<T>>>>, AllocError>
    ensures { IfOk result (λ again. map arc_value again.items ≡ map arc_value pieces.now) }
{
    let mut again = Vec::with_capacity(alloc, pieces.len())?;
    for piece in pieces {
        again.push(Arc::try_clone(piece)?)?;
    }
    Ok(again)
}

// Returns the same entries, each with one owner more.
fn shared_entries<T: Drop>(alloc: Global, entries: &[Arc<T>]) -> Result<Vec<Arc<T>>, AllocError>
    ensures { IfOk result (λ again. map arc_value again.items ≡ map arc_value entries.now) }
{
    let mut again = Vec::with_capacity(alloc, entries.len())?;
    add_shared(&mut again, entries)?;
    Ok(again)
}

impl<T: Drop> ArcList<T> {
    /// Makes a list without entries. It allocates nothing.
    pub fn new(alloc: Global) -> ArcList<T>
        ensures { result ≡ [] }
    {
        ArcList {
            alloc,
            full: Vec::new(alloc),
            last: Vec::new(alloc),
            count: 0,
        }
    }

    /// Returns how many entries there are.
    pub fn len(&self) -> usize
        ensures { result ≡ length self.now }
    {
        self.count
    }

    /// Adds an entry after the others. It allocates capacity for the entries after the last full piece, as a vector
    /// does. Each 256th entry makes a full piece of them, so adding an entry costs the same on average, however many
    /// there are.
    ///
    /// Errors: out of memory. Then the list stays as it is.
    pub fn push(&mut self, entry: Arc<T>) -> Result<(), AllocError>
        requires few { length self.old + 1 < 2 ^ 64 }
        ensures ok { OnOk result (self.new ≡ self.old ++ arc_value entry ∷ []) }
        ensures err { OnErr result (self.new ≡ self.old) }
    {
        if self.last.len() + 1 < PIECE {
            self.last.push(entry)?;
            self.count += 1;
            return Ok(());
        }
        self.full.reserve(1)?;
        let mut piece = shared_entries(self.alloc, &self.last)?;
        piece.push(entry)?;
        let piece = Arc::new(self.alloc, piece)?;
        self.full.push(piece)?;
        self.last.clear();
        self.count += 1;
        Ok(())
    }

    /// Adds one owner more of each of these entries after the others, in order.
    ///
    /// Errors: out of memory. Then some of them, from the first on, may have been added.
    pub fn extend_shared(&mut self, entries: &[Arc<T>]) -> Result<(), AllocError>
        requires few { length self.old + length entries.now < 2 ^ 64 }
        ensures ok { OnOk result (self.new ≡ self.old ++ map arc_value entries.now) }
        ensures err { OnErr result (IsPrefix self.new (self.old ++ map arc_value entries.now)) }
    {
        for entry in entries {
            self.push(Arc::try_clone(entry)?)?;
        }
        Ok(())
    }

    /// Returns a second list with the same entries. It allocates eight bytes for each full piece and for each entry
    /// after them, fewer than 256.
    ///
    /// Errors: out of memory.
    pub fn share(&self) -> Result<ArcList<T>, AllocError>
        ensures { IfOk result (λ again. again ≡ self.now) }
    {
        Ok(ArcList {
            alloc: self.alloc,
            full: shared_pieces(self.alloc, &self.full)?,
            last: shared_entries(self.alloc, &self.last)?,
            count: self.count,
        })
    }

    /// Returns the entries, if there is no full piece: always if there are fewer than 256. It allocates nothing.
    pub fn as_slice(&self) -> Option<&[Arc<T>]>
        ensures entries { IfSome result (λ entries. map arc_value entries.now ≡ self.now) }
        ensures none { IfNone result (256 ≤ length self.now) }
    {
        if self.full.is_empty() {
            Some(&self.last)
        } else {
            None
        }
    }

    /// Returns the entries as a vector. It allocates eight bytes for each.
    ///
    /// Errors: out of memory.
    pub fn to_vec(&self) -> Result<Vec<Arc<T>>, AllocError>
        ensures { IfOk result (λ entries. map arc_value entries.items ≡ self.now) }
    {
        let mut entries = Vec::with_capacity(self.alloc, self.count)?;
        for piece in &self.full {
            add_shared(&mut entries, piece)?;
        }
        add_shared(&mut entries, &self.last)?;
        Ok(entries)
    }
}
