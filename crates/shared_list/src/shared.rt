ghost use Rattle.std.specs.Prelude.{◌≡◌, ◌<◌, ◌*◌, ◌^◌, ◌++◌, [], ◌∷◌, Some, length, take, drop as skip, slice_get};
ghost use Rattle.std.specs.Prelude.{slice_set, IfOk, OnOk, OnErr};
ghost use Rattle.std.specs.Arc.{arc_value};

use std::alloc::{AllocError, Global};
use std::fmt;
use std::marker::Model;
use std::sync::Arc;

const PIECE: usize = 1_024;

/// A list that is stored in pieces of 1,024 entries. [`share`](Shared::share) makes a second list with the same full
/// pieces, so it costs a pointer per piece and a copy of the entries after the last full piece. A piece that another
/// list also owns is copied before an entry of it changes.
///
/// An entry uses as much memory as in a vector, and reading it takes one step more.
#[derive(Drop)]
pub struct Shared<T> {
    alloc: Global,
    full: Vec<Arc<Vec<T>>>,
    // the entries after the full pieces, which are never shared
    last: Vec<T>,
}

impl<T> Model for Shared<T> {
    ghost use Rattle.std.specs.Prelude.{List};
    ghost use Rattle.std.specs.Arc.{arc_value};
    ghost use Rattle.shared_list.specs.Pieces.{items_in, joined, ArePieces};

    ghost Value = { List T };

    ghost view = { λ s. joined (λ p. items_in (arc_value p)) s.full.items s.last.items };

    ghost invariant = { λ s. ArePieces (λ p. items_in (arc_value p)) s.full.items s.last.items };
}

// Copies the entries into a vector with capacity for a whole piece.
fn copied<T: Copy + Drop>(alloc: Global, entries: &[T]) -> Result<Vec<T>, AllocError>
    ensures { IfOk result (λ v. v.items ≡ entries.now) }
{
    let mut copy = Vec::with_capacity(alloc, PIECE)?;
    copy.extend_from_slice(entries)?;
    Ok(copy)
}

// Changes an entry of a piece: in place if the piece has no other owner, and otherwise in a copy.
fn change<T: Copy + Drop>(
    alloc: Global,
    piece: &mut Arc<Vec<T>>,
    at: usize,
    entry: T,
) -> Result<(), AllocError>
    requires { at < length (arc_value piece.old).items }
    ensures ok { OnOk result ((arc_value piece.new).items ≡ slice_set (arc_value piece.old).items at entry) }
    ensures err { OnErr result (piece.new ≡ piece.old) }
    ensures len { length (arc_value piece.new).items ≡ length (arc_value piece.old).items }
{
    if let Some(own) = Arc::get_mut(piece) {
        own[at] = entry;
        return Ok(());
    }
    let mut changed = copied(alloc, piece)?;
    changed[at] = entry;
    *piece = Arc::new(alloc, changed)?;
    Ok(())
}

impl<T: Copy + Drop> Shared<T> {
    /// Makes an empty list. It allocates nothing.
    pub fn new(alloc: Global) -> Shared<T>
        ensures { result ≡ [] }
    {
        Shared {
            alloc,
            full: Vec::new(alloc),
            last: Vec::new(alloc),
        }
    }

    /// Returns the number of entries.
    pub fn len(&self) -> usize
        ensures { result ≡ length self.now }
    {
        self.full.len() * PIECE + self.last.len()
    }

    /// Returns the entry at a place, from 0, in constant time.
    pub fn get(&self, at: usize) -> T
        requires { at < length self.now }
        ensures { slice_get self.now at ≡ Some result }
    {
        let piece = at / PIECE;
        if piece < self.full.len() {
            let full: &Vec<T> = &self.full[piece];
            full[at % PIECE]
        } else {
            self.last[at % PIECE]
        }
    }

    /// Returns the entries of a piece as a slice: those from `number * 1024` on, at most 1,024. It is empty after the
    /// last entry.
    ///
    /// A walk over all pieces reads the entries as fast as a walk over a vector.
    pub fn piece(&self, number: usize) -> &[T]
        ensures { result.now ≡ take 1024 (skip (number * 1024) self.now) }
    {
        if number < self.full.len() {
            &self.full[number]
        } else if number == self.full.len() {
            &self.last
        } else {
            &[]
        }
    }

    /// Appends an entry. It allocates at most one piece, and the vector of pointers when that grows. Errors: out of
    /// memory; then the list is as before.
    pub fn push(&mut self, entry: T) -> Result<(), AllocError>
        requires few { length self.old < 2 ^ 32 }
        ensures ok { OnOk result (self.new ≡ self.old ++ entry ∷ []) }
        ensures err { OnErr result (self.new ≡ self.old) }
    {
        if self.last.len() + 1 < PIECE {
            self.last.push(entry)?;
            return Ok(());
        }
        self.full.reserve(1)?;
        let mut piece = copied(self.alloc, &self.last)?;
        piece.push(entry)?;
        let piece = Arc::new(self.alloc, piece)?;
        self.full.push(piece)?;
        self.last.clear();
        Ok(())
    }

    /// Returns a second list with the same entries, which shares the full pieces with this one. It allocates a pointer
    /// per piece and one piece. Errors: out of memory.
    pub fn share(&self) -> Result<Shared<T>, AllocError>
        ensures { IfOk result (λ s. s ≡ self.now) }
    {
        let mut full = Vec::with_capacity(self.alloc, self.full.len())?;
        for piece in &self.full {
            full.push(Arc::try_clone(piece)?)?;
        }
        Ok(Shared {
            alloc: self.alloc,
            full,
            last: copied(self.alloc, &self.last)?,
        })
    }

    /// Changes an entry of this list, and of no list that it shares pieces with. It copies the piece of the entry if
    /// another list owns that piece too, and allocates nothing otherwise. Errors: out of memory; then the list is as
    /// before.
    pub fn set(&mut self, at: usize, entry: T) -> Result<(), AllocError>
        requires { at < length self.old }
        ensures ok { OnOk result (self.new ≡ slice_set self.old at entry) }
        ensures err { OnErr result (self.new ≡ self.old) }
    {
        let piece = at / PIECE;
        if piece < self.full.len() {
            change(self.alloc, &mut self.full[piece], at % PIECE, entry)?;
        } else {
            self.last[at % PIECE] = entry;
        }
        Ok(())
    }
}

/// Writes the entries as a list.
impl<T: fmt::Debug> fmt::Debug for Shared<T> {
    fn fmt<W: fmt::Write>(&self, f: &mut fmt::Formatter<W>) -> fmt::Result {
        let mut list = f.debug_list();
        for piece in &self.full {
            list.slice(piece);
        }
        list.slice(&self.last);
        list.finish()
    }
}
