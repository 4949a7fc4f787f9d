ghost use Rattle.std.specs.Prelude.{◌≡◌, ◌≤◌, ◌<◌, ◌+◌, ◌-◌, [], Some, length, position, slice_get, IfOk};
ghost use mathlib.Core.List.{IsPrefix};
ghost use Rattle.facet_names.specs.Paths.{path_eq};
ghost use Rattle.label_pieces.specs.Pieces.{AllDiffer};

use crate::piece::{PIECE, Piece};
use crate::sharing::{count_kept, piece_end, push_piece, shared};
use crate::steps::Steps;
use facet_names::{NoMemory, Path};
use std::alloc::Global;
use std::hash::RandomState;
use std::marker::Model;
use std::sync::Arc;
use std::sync::ledger::Ledger;

/// A list of at most 999,999 labels in pieces. It shares its pieces with the lists that it continues, and with those
/// that continue it.
///
/// The first pieces are full: 4,096 labels each. The labels after them are fewer, in small pieces, each of which has at
/// least a third of the labels after it. A list owns a pointer per piece.
#[derive(Drop)]
pub struct LabelPieces {
    alloc: Global,
    keys: RandomState,
    pieces: Vec<Arc<Piece>>,
    size: usize,
}

impl Model for LabelPieces {
    ghost use Rattle.std.specs.Prelude.{ℕ, List, map};
    ghost use Rattle.std.specs.Arc.{arc_value};
    ghost use Rattle.label_pieces.specs.Pieces.{joined, AreLabelPieces};

    ghost Value = { List (List (List ℕ)) };

    ghost view = { λ l. joined (map arc_value l.pieces.items) };

    ghost invariant = { λ l. AreLabelPieces (map arc_value l.pieces.items) l.size };
}

impl LabelPieces {
    /// Returns a list without a label. `keys` are the hash keys of its pieces; no result depends on them. It allocates
    /// nothing.
    pub fn new(alloc: Global, keys: RandomState) -> LabelPieces
        ensures { result ≡ [] }
    {
        LabelPieces {
            alloc,
            keys,
            pieces: Vec::new(alloc),
            size: 0,
        }
    }

    /// Returns how many labels there are.
    pub fn len(&self) -> usize
        ensures length { result ≡ length self.now }
        ensures few { result < 1000000 }
    {
        self.size
    }

    /// Returns the place of a label, or `None` if it is not in the list. It searches the pieces in order, the oldest
    /// first: one look-up in a hash table for each 4,096 labels before it, and about 10 more among the newest.
    pub fn find(&self, path: &Path) -> Option<usize>
        ensures { result ≡ position (path_eq path.now) self.now }
    {
        let mut before = 0;
        for piece in &self.pieces {
            if let Some(at) = piece.find(path) {
                return Some(before + at);
            }
            before += piece.len();
        }
        None
    }

    /// Returns the label at a place, from 0. In a full piece it takes constant time, and otherwise a walk over the
    /// small pieces.
    pub fn path_at(&self, at: usize) -> &Path
        requires { at < length self.now }
        ensures { slice_get self.now at ≡ Some result.now }
    {
        let mut number = at / PIECE;
        let mut rest = at % PIECE;
        while rest >= self.pieces[number].len() {
            rest -= self.pieces[number].len();
            number += 1;
        }
        self.pieces[number].path_at(rest)
    }

    /// Returns the list of all these labels, the first of which are those of this list. The full pieces are shared. The
    /// new labels go into one new piece, together with the small pieces that have less than a third of the labels after
    /// them, or into full pieces.
    ///
    /// It copies each new label, and of the others at most 4,095 after the full pieces: on average 8 per new label if
    /// labels are added one by one. Each copy of a label counts as a step.
    ///
    /// Errors: out of memory.
    pub fn grown<L: Ledger>(
        &self,
        all: &[Path],
        steps: &mut Steps<L>,
    ) -> Result<LabelPieces, NoMemory>
        requires prefix { IsPrefix self.now all.now }
        requires differ { AllDiffer all.now }
        requires few { length all.now < 1000000 }
        ensures list { IfOk result (λ l. l ≡ all.now) }
        ensures steps { steps.new ≤ steps.old + (length all.now - length self.now) + 4095 }
    {
        let kept = count_kept(self.alloc, &self.pieces, self.size, all.len())?;
        let (mut pieces, start) = shared(self.alloc, &self.pieces[..kept])?;
        let mut from = start;
        while from < all.len() {
            let to = piece_end(from, all.len());
            push_piece(self.alloc, self.keys, &mut pieces, &all[from..to], steps)?;
            from = to;
        }
        Ok(LabelPieces {
            alloc: self.alloc,
            keys: self.keys,
            pieces,
            size: all.len(),
        })
    }
}
