//! The numbers of files.
ghost use Rattle.std.specs.Prelude.{◌≡◌, ◌≢◌, ◌<◌, ◌≤◌, ◌^◌, ◌&&◌, max, Some, Ok, Err, IfOk, IfErr, IfSome};
ghost use Rattle.std.specs.Prelude.{if◌then◌else◌, Contains};
ghost use Rattle.std.specs.Option.{option_map_or};
ghost use Rattle.facet_disk.specs.declared.name.FileName.{FileName};
ghost use Rattle.facet_disk.specs.declared.name.Kind.TheVariants.{Commit};
ghost use Rattle.facet_disk.specs.FileNames.{same_dir, same_kind};
ghost use Rattle.facet_disk.specs.Images.{Image};
ghost use Rattle.commit_calls.specs.Held.{newest};
ghost use Rattle.store_opening.specs.declared.fault.OpenFault.TheVariants.{Disk, NoMemory as Memory};
ghost use Rattle.store_opening.specs.Faults.{IsSound};
ghost use Rattle.store_opening.specs.Files.{greatest_number, unspent};
ghost use Rattle.store_opening.specs.Newest.{AreListed, next_after};

use crate::fault::OpenFault;
use facet_disk::{Dir, FileName, Kind};

const LIMIT: u64 = 1 << 63;

// Returns the greater of the greatest number so far and this one, if it counts.
fn greater(best: Option<u64>, counts: bool, number: u64) -> Option<u64>
    ensures best { result ≡ (if counts then Some (option_map_or (λ n. max n number) best number) else best) }
    ensures fits { IfSome result (λ n. n < 2 ^ 64) }
{
    if !counts {
        return best;
    }
    match best {
        Some(found) => Some(found.max(number)),
        None => Some(number),
    }
}

fn is_commit_of(name: FileName, dir: Dir) -> bool
    ensures { result ≡ (same_dir name.dir dir && same_kind name.kind Commit) }
{
    name.dir == dir && name.kind == Kind::Commit
}

/// Returns the number of the newest commit file of a directory, or `None`. It visits each name once.
pub(crate) fn newest_of(names: &[FileName], dir: Dir) -> Option<u64>
    ensures { (c : Image) → AreListed c names.now → result ≡ newest dir c }
{
    let mut best: Option<u64> = None;
    for name in names {
        best = greater(best, is_commit_of(*name, dir), name.number);
    }
    best
}

// Returns the greatest number of all files.
fn greatest_of(names: &[FileName]) -> Option<u64>
    ensures greatest { (c : Image) → AreListed c names.now → result ≡ greatest_number c }
    ensures most { (n : FileName) → Contains names.now n → IfSome result (λ most. n.number ≤ most) }
    ensures none { result ≡ None → (n : FileName) → Contains names.now n → ⊥ }
{
    let mut best: Option<u64> = None;
    for name in names {
        best = greater(best, true, name.number);
    }
    best
}

/// Returns the number that the next file takes. It visits each name once. Errors: `NumbersSpent` if a file has a number
/// of 2^63 or more.
pub(crate) fn next_number(names: &[FileName]) -> Result<u64, OpenFault>
    ensures ok { IfOk result (λ next. (c : Image) → AreListed c names.now → unspent (greatest_number c) ≡ Ok tt) }
    ensures next { IfOk result (λ next. (c : Image) → AreListed c names.now → next ≡ next_after (greatest_number c)) }
    ensures err { IfErr result (λ e. (c : Image) → AreListed c names.now → unspent (greatest_number c) ≡ Err e) }
    ensures device { IfErr result (λ e. (e ≢ Disk) × (e ≢ Memory)) }
    ensures sound { IfErr result IsSound }
    ensures below { IfOk result (λ next. (n : FileName) → Contains names.now n → n.number < next) }
    ensures some { IfOk result (λ next. 1 ≤ next) }
    ensures room { IfOk result (λ next. next ≤ 2 ^ 63) }
{
    let Some(number) = greatest_of(names) else {
        return Ok(1);
    };
    if number >= LIMIT {
        return Err(OpenFault::NumbersSpent { number });
    }
    Ok(number + 1)
}
