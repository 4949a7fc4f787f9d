ghost use Rattle.std.specs.Prelude.{◌≡◌, ◌≢◌, ◌≤◌, ◌+◌, ◌*◌, ℕ, length, map, Some, IfSome, IfErr, OnOk, OnErr, take};
ghost use Rattle.std.specs.Prelude.{None, false};
ghost use Rattle.facet_disk.specs.declared.fault.DiskFault.TheVariants.{NoMemory};
ghost use Rattle.facet_disk.specs.declared.name.Kind.TheVariants.{Pending, Commit};
ghost use Rattle.facet_disk.specs.Images.{Image, Told};
ghost use Rattle.facet_disk.specs.Crashes.{PutOf, Within};
ghost use Rattle.facet_disk.specs.Calls.{HasCause, Rose};
ghost use Rattle.commit_calls.specs.DeviceCalls.{IsFailure, remove, file_calls, files_calls, part_calls, part_count};
ghost use Rattle.commit_calls.specs.DeviceCalls.{calls_of, call_count, StopsAt};
ghost use Rattle.commit_calls.specs.Held.{Below, file};
ghost use Rattle.commit_calls.specs.Moments.{Passes, LeavesOnly, IsAt, IsOneOfThree};
ghost use Rattle.commit_calls.specs.Leading.{WhereItLeads};
ghost use Rattle.commit_calls.specs.Plans.{Rises, IsPlan, IsReady, AreThere, Fits};
ghost use Rattle.commit_calls.specs.Stages.{Beside, AreWritten, IsPublished, Without};
ghost use Rattle.commit_calls.specs.Outcomes.{file_told, files_told, published_told, cleared_told, carried_told};
ghost use Rattle.commit_calls.specs.Outcomes.{IsToldBelow, IsCutShort};

use crate::fault::CutShort;
use crate::plan::{Plan, Write};
use facet_disk::{Dir, Disk, DiskFault, FileName, Kind};

// Writes a file and syncs it: two calls.
fn write_file<D: Disk>(disk: &mut D, name: FileName, bytes: &[u8]) -> Result<(), DiskFault>
    ensures passes { Passes D.Disk (PutOf name) disk.old disk.new }
    ensures durable { OnOk result ((s : Told) → D.told disk.old ≡ Some s → (c : Image) → D.may_leave disk.new c
        → c name ≡ Some bytes.now) }
    ensures told { OnOk result ((s : Told) → D.told disk.old ≡ Some s
        → D.told disk.new ≡ Some (file_told s name bytes.now)) }
    ensures below { (s : Told) (next : ℕ) → next ≤ name.number → D.told disk.old ≡ Some s
        → IsToldBelow next s (D.told disk.new) }
    ensures cause { HasCause (D.faults disk.old) (D.faults disk.new) result }
    ensures failed { (s : Told) → D.told disk.old ≡ Some s → s.files name ≡ None
        → IfErr result (IsFailure (D.failures disk.old) (D.failures disk.new)) }
    ensures unfailed { OnOk result (D.failures disk.new ≡ D.failures disk.old) }
    ensures memory { IfErr result (λ e. e ≢ NoMemory) }
    ensures calls { OnOk result (D.moment disk.new ≡ D.moment disk.old + 2) }
    ensures stopped { OnErr result (StopsAt D.Disk (file_calls name bytes.now) disk.old disk.new) }
{
    disk.put(name, bytes)?;
    disk.sync(name)?;
    Ok(())
}

// Writes files in order. Each is synced before the next is written.
fn write_files<D: Disk>(disk: &mut D, files: &[Write]) -> Result<(), DiskFault>
    ensures passes { (from to : ℕ) → Rises from to files.now → Passes D.Disk (Beside from to) disk.old disk.new }
    ensures durable { OnOk result ((s : Told) (from to : ℕ) → Rises from to files.now → D.told disk.old ≡ Some s
        → Within (AreWritten files.now) (D.may_leave disk.new)) }
    ensures told { OnOk result ((s : Told) → D.told disk.old ≡ Some s
        → D.told disk.new ≡ Some (files_told files.now s)) }
    ensures below { (s : Told) (from to : ℕ) → Rises from to files.now → D.told disk.old ≡ Some s
        → IsToldBelow from s (D.told disk.new) }
    ensures cause { HasCause (D.faults disk.old) (D.faults disk.new) result }
    ensures failed { (s : Told) (from to : ℕ) → Rises from to files.now → D.told disk.old ≡ Some s → Below from s.files
        → IfErr result (IsFailure (D.failures disk.old) (D.failures disk.new)) }
    ensures unfailed { OnOk result (D.failures disk.new ≡ D.failures disk.old) }
    ensures memory { IfErr result (λ e. e ≢ NoMemory) }
    ensures calls { OnOk result (D.moment disk.new ≡ D.moment disk.old + 2 * length files.now) }
    ensures stopped { OnErr result (StopsAt D.Disk (files_calls files.now) disk.old disk.new) }
{
    for file in files {
        write_file(disk, file.name, &file.bytes)?;
    }
    Ok(())
}

// Makes a pending file the newest commit file of its directory, durably: two calls, or none if this part is left out.
fn publish<D: Disk>(disk: &mut D, dir: Dir, part: Option<u64>) -> Result<(), DiskFault>
    ensures passes { Passes D.Disk (IsPublished dir part) disk.old disk.new }
    ensures done { OnOk result ((s : Told) → D.told disk.old ≡ Some s
        → IfSome part (λ n. s.unsynced (file dir Pending n) ≡ false)
        → (c : Image) → D.may_leave disk.new c
        → (d : Image) × D.may_leave disk.old d × IsPublished dir part d c
        × IfSome part (λ n. c (file dir Commit n) ≡ s.files (file dir Pending n))) }
    ensures told { OnOk result ((s : Told) → D.told disk.old ≡ Some s
        → D.told disk.new ≡ Some (published_told dir part s)) }
    ensures below { (s : Told) (next : ℕ) → IfSome part (λ n. next ≤ n) → D.told disk.old ≡ Some s
        → IsToldBelow next s (D.told disk.new) }
    ensures cause { HasCause (D.faults disk.old) (D.faults disk.new) result }
    ensures failed { (s : Told) → D.told disk.old ≡ Some s → IsReady dir part s.files
        → IfErr result (IsFailure (D.failures disk.old) (D.failures disk.new)) }
    ensures unfailed { OnOk result (D.failures disk.new ≡ D.failures disk.old) }
    ensures memory { IfErr result (λ e. e ≢ NoMemory) }
    ensures calls { OnOk result (D.moment disk.new ≡ D.moment disk.old + part_count part) }
    ensures stopped { OnErr result (StopsAt D.Disk (part_calls dir part) disk.old disk.new) }
{
    let Some(number) = part else {
        return Ok(());
    };
    let from = FileName {
        dir,
        kind: Kind::Pending,
        number,
    };
    let to = FileName {
        dir,
        kind: Kind::Commit,
        number,
    };
    disk.rename(from, to)?;
    disk.sync_names(dir)?;
    Ok(())
}

// Removes files in order.
fn clear<D: Disk>(disk: &mut D, names: &[FileName]) -> Result<(), DiskFault>
    ensures passes { Passes D.Disk (Without names.now) disk.old disk.new }
    ensures told { OnOk result ((s : Told) → D.told disk.old ≡ Some s
        → D.told disk.new ≡ Some (cleared_told names.now s)) }
    ensures partly { (s : Told) → D.told disk.old ≡ Some s → (k : ℕ)
        × (D.told disk.new ≡ Some (cleared_told (take k names.now) s)) }
    ensures cause { HasCause (D.faults disk.old) (D.faults disk.new) result }
    ensures failed { (s : Told) → D.told disk.old ≡ Some s → AreThere names.now s.files
        → IfErr result (IsFailure (D.failures disk.old) (D.failures disk.new)) }
    ensures unfailed { OnOk result (D.failures disk.new ≡ D.failures disk.old) }
    ensures memory { IfErr result (λ e. e ≢ NoMemory) }
    ensures calls { OnOk result (D.moment disk.new ≡ D.moment disk.old + length names.now) }
    ensures stopped { OnErr result (StopsAt D.Disk (map remove names.now) disk.old disk.new) }
{
    for name in names {
        disk.remove(*name)?;
    }
    Ok(())
}

/// Makes the disk calls of a commit.
///
/// It writes and syncs each file. Then it renames the taxonomy's pending file to its commit file and syncs the names of
/// that directory, and after that does the same for the index. Last it removes the strays. It ends at the first call
/// that fails, and makes no call after it.
///
/// Costs: two calls for each file, two for each part that is not left out and one for each stray. It allocates nothing
/// itself.
///
/// Errors: `CutShort` if a disk call failed; the disk counts the fault.
pub fn execute_plan<D: Disk>(disk: &mut D, plan: &Plan) -> Result<(), CutShort>
    requires plan { IsPlan plan.now }

    // The following holds for a disk whose files are known and represent one pair of taxonomy and index, and a plan
    // from this pair to another.

    // At each moment, every image represents the pair before, the pair after, or the old index under the new taxonomy,
    // whatever the result.
    ensures any_moment { WhereItLeads D.Disk plan.now disk.old
        (λ t i t' i'. LeavesOnly D.Disk disk.old disk.new (IsOneOfThree plan.now.to t i t' i')) }

    // So does every image at the end.
    ensures now { WhereItLeads D.Disk plan.now disk.old (λ t i t' i'. Within (IsOneOfThree plan.now.to t i t' i')
        (D.may_leave disk.new)) }

    // After `Ok` every image represents the pair after.
    ensures done { OnOk result (WhereItLeads D.Disk plan.now disk.old
        (λ t i t' i'. IsAt D.may_leave plan.now.to t' i' disk.new)) }

    // After `Ok` the disk reads what the plan makes of the files, and their numbers stay below its end.
    ensures told { OnOk result ((s : Told) → D.told disk.old ≡ Some s
        → D.told disk.new ≡ Some (carried_told plan.now s)) }
    ensures names { OnOk result ((s u : Told) → D.told disk.old ≡ Some s → D.told disk.new ≡ Some u
        → Below plan.now.from s.files → Below plan.now.to u.files) }

    // Wherever it ends, the removed strays are the first ones, and none was removed before all else was done.
    ensures cut_short { OnErr result ((s : Told) → D.told disk.old ≡ Some s → IsCutShort plan.now s (D.told disk.new)) }

    ensures cause { OnErr result (Rose (D.faults disk.old) (D.faults disk.new)) }
    ensures still { OnOk result (D.faults disk.new ≡ D.faults disk.old) }

    // If the plan fits the files, every call is allowed, so it ends early only if an I/O error happened.
    ensures failed { (s : Told) → D.told disk.old ≡ Some s → Fits plan.now s.files
        → OnErr result (Rose (D.failures disk.old) (D.failures disk.new)) }
    ensures unfailed { OnOk result (D.failures disk.new ≡ D.failures disk.old) }
    ensures later { D.faults disk.old ≤ D.faults disk.new }

    // After `Ok` it has made as many calls as the plan has.
    ensures calls { OnOk result (D.moment disk.new ≡ D.moment disk.old + call_count plan.now) }

    // Otherwise the first calls of the plan were made, the next one failed, and none was made after it.
    ensures stopped { OnErr result (StopsAt D.Disk (calls_of plan.now) disk.old disk.new) }
{
    write_files(disk, &plan.writes)?;
    publish(disk, Dir::Taxonomy, plan.taxonomy)?;
    publish(disk, Dir::Index, plan.index)?;
    clear(disk, &plan.strays)?;
    Ok(())
}
