//! The pieces of a list: which of them stay when labels are added, and how new ones are made.
ghost use Rattle.std.specs.Prelude.{◌≡◌, ◌⊎◌, ◌≤◌, ◌<◌, ◌+◌, ◌/◌, ◌++◌, [], ◌∷◌, length, map, IfOk, OnOk};
ghost use Rattle.std.specs.Arc.{arc_value};
ghost use Rattle.label_pieces.specs.Pieces.{joined, AllDiffer, AreLabelPieces};

use crate::piece::{PIECE, Piece};
use crate::steps::Steps;
use facet_names::{NoMemory, Path};
use merge_policy::merge_from;
use std::alloc::Global;
use std::hash::RandomState;
use std::sync::Arc;
use std::sync::ledger::Ledger;

// Returns how many labels each of these pieces has, followed by the number of new ones.
fn sizes_of(alloc: Global, pieces: &[Arc<Piece>], new: usize) -> Result<Vec<u32>, NoMemory>
    requires { new < 4096 }
    ensures { IfOk result (λ v. v.items ≡ map length (map arc_value pieces.now) ++ new ∷ []) }
{
    let mut sizes = Vec::with_capacity(alloc, pieces.len() + 1)?;
    for piece in pieces {
        sizes.push(piece.len() as u32)?;
    }
    sizes.push(new as u32)?;
    Ok(sizes)
}

/// Returns how many pieces of a list of `size` labels stay when it grows to `all` labels: the full ones, and, if no
/// full piece is to be made, the small ones up to the first that has less than a third of the labels after it. Errors:
/// out of memory.
pub fn count_kept(
    alloc: Global,
    pieces: &[Arc<Piece>],
    size: usize,
    all: usize,
) -> Result<usize, NoMemory>
    requires pieces { AreLabelPieces (map arc_value pieces.now) size }
    requires more { size ≤ all }
    ensures full { IfOk result (λ n. size / 4096 ≤ n) }
    ensures within { IfOk result (λ n. n ≤ length pieces.now) }
    ensures whole { IfOk result (λ n. (n ≡ size / 4096) ⊎ (all / 4096 ≡ size / 4096)) }
{
    let full = size / PIECE;
    if all / PIECE != full {
        return Ok(full);
    }
    let (_, tail) = pieces.split_at(full);
    let sizes = sizes_of(alloc, tail, all - size)?;
    let first = full + merge_from(&sizes);
    Ok(if first < pieces.len() {
        first
    } else {
        pieces.len()
    })
}

/// Returns the same pieces, each with one owner more, and how many labels they have together. Errors: out of memory.
pub fn shared(alloc: Global, pieces: &[Arc<Piece>]) -> Result<(Vec<Arc<Piece>>, usize), NoMemory>
    requires { length (joined (map arc_value pieces.now)) ≤ 1000000 }
    ensures pieces { IfOk result (λ r. map arc_value r.0.items ≡ map arc_value pieces.now) }
    ensures size { IfOk result (λ r. r.1 ≡ length (joined (map arc_value pieces.now))) }
{
    let mut again = Vec::with_capacity(alloc, pieces.len())?;
    let mut size = 0;
    for piece in pieces {
        size += piece.len();
        again.push(Arc::try_clone(piece)?)?;
    }
    Ok((again, size))
}

// Returns a piece of these labels. Each copy counts as a step.
fn piece_of<L: Ledger>(
    alloc: Global,
    keys: RandomState,
    labels: &[Path],
    steps: &mut Steps<L>,
) -> Result<Piece, NoMemory>
    requires few { length labels.now ≤ 4096 }
    requires differ { AllDiffer labels.now }
    ensures piece { IfOk result (λ p. p ≡ labels.now) }
    ensures steps { steps.new ≤ steps.old + length labels.now }
{
    let mut piece = Piece::new(alloc, keys);
    for label in labels {
        piece.push(label.dup(alloc)?, steps)?;
    }
    Ok(piece)
}

/// Adds a piece of these labels after the others. Each copy of a label counts as a step. Errors: out of memory.
pub fn push_piece<L: Ledger>(
    alloc: Global,
    keys: RandomState,
    pieces: &mut Vec<Arc<Piece>>,
    labels: &[Path],
    steps: &mut Steps<L>,
) -> Result<(), NoMemory>
    requires few { length labels.now ≤ 4096 }
    requires differ { AllDiffer labels.now }
    ensures pieces { OnOk result (map arc_value pieces.new.items ≡ map arc_value pieces.old.items ++ labels.now ∷ []) }
    ensures steps { steps.new ≤ steps.old + length labels.now }
{
    let piece = piece_of(alloc, keys, labels, steps)?;
    pieces.push(Arc::new(alloc, piece)?)?;
    Ok(())
}

/// Returns the end of the piece that begins at a place, in a list of `size` labels.
pub fn piece_end(from: usize, size: usize) -> usize
    requires { from < size }
    ensures some { from < result }
    ensures within { result ≤ size }
    ensures few { result ≤ from + 4096 }
    ensures end { (result ≡ size) ⊎ (result ≡ from + 4096) }
{
    if size - from < PIECE {
        size
    } else {
        from + PIECE
    }
}
