//! Reading files of a disk.
ghost use Rattle.std.specs.Prelude.{◌≡◌, ◌≢◌, ◌⊎◌, Some, None, Ok, Err, IfOk, IfErr, IsErrOf, option_map};
ghost use Rattle.sha2.specs.Sha256.{sha256};
ghost use Rattle.facet_disk.specs.Images.{Told};
ghost use Rattle.facet_disk.specs.Calls.{Lists, Rose};
ghost use Rattle.commit_calls.specs.Held.{newest_file};
ghost use Rattle.store_opening.specs.declared.fault.OpenFault.TheVariants.{Disk, NoMemory as Memory};
ghost use Rattle.store_opening.specs.Faults.{IsSound};
ghost use Rattle.store_opening.specs.Files.{segment_bytes};
ghost use Rattle.store_opening.specs.Newest.{AreListed};
ghost use Rattle.store_opening.specs.Commits.{commit_bytes};
ghost use Rattle.store_opening.specs.Quiet.{IsRead, FailsOnly, OfListed, OfFiles};

use crate::fault::{OpenFault, of_file};
use crate::names::Names;
use crate::numbers::newest_of;
use commit_file::check_digest;
use facet_disk::{Dir, Disk, FileName, Kind};
use std::alloc::Global;

/// A commit file: its number and its bytes.
#[derive(Drop)]
pub(crate) struct CommitBytes {
    pub(crate) number: u64,
    pub(crate) bytes: Vec<u8>,
}

// Returns the names of a directory's files.
fn list_dir<D: Disk>(alloc: Global, disk: &mut D, dir: Dir) -> Result<Vec<FileName>, OpenFault>
    ensures ok { IfOk result (λ v. (s : Told) → D.told disk.old ≡ Some s → Lists dir s.files v.items) }
    ensures err { IfErr result (λ e. (e ≡ Memory) ⊎ (e ≡ Disk)) }
    ensures read { IsRead D.Disk disk.old disk.new result }
    ensures failed { IsErrOf result Disk → Rose (D.failures disk.old) (D.failures disk.new) }
{
    let names = disk.list(alloc, dir)?;
    Ok(names.into_vec())
}

/// Returns the names of the files of both directories.
pub(crate) fn list_all<D: Disk>(alloc: Global, disk: &mut D) -> Result<Names, OpenFault>
    ensures ok { IfOk result (λ names. (s : Told) → D.told disk.old ≡ Some s → AreListed s.files names) }
    ensures err { IfErr result (λ e. (e ≡ Memory) ⊎ (e ≡ Disk)) }
    ensures read { IsRead D.Disk disk.old disk.new result }
    ensures failed { IsErrOf result Disk → Rose (D.failures disk.old) (D.failures disk.new) }
{
    let mut names = list_dir(alloc, disk, Dir::Taxonomy)?;
    let others = list_dir(alloc, disk, Dir::Index)?;
    names.extend_from_slice(&others)?;
    Ok(Names::new(names))
}

// Returns the bytes of a file.
fn read_file<D: Disk>(alloc: Global, disk: &mut D, name: FileName) -> Result<Vec<u8>, OpenFault>
    ensures ok { IfOk result (λ v. (s : Told) → D.told disk.old ≡ Some s → s.files name ≡ Some v.items) }
    ensures err { IfErr result (λ e. (e ≡ Memory) ⊎ (e ≡ Disk)) }
    ensures read { IsRead D.Disk disk.old disk.new result }
    ensures failed { FailsOnly D.Disk (λ c. c name ≢ None) disk.old disk.new result }
{
    let bytes = disk.read(alloc, name)?;
    Ok(bytes)
}

/// Reads the newest commit file of a directory, if there is one.
pub(crate) fn read_newest<D: Disk>(
    alloc: Global,
    disk: &mut D,
    listed: &Names,
    dir: Dir,
) -> Result<Option<CommitBytes>, OpenFault>
    ensures ok { IfOk result (λ o. OfListed D.Disk listed.now disk.old (λ c. newest_file dir c
        ≡ option_map commit_bytes o)) }
    ensures err { IfErr result (λ e. (e ≡ Memory) ⊎ (e ≡ Disk)) }
    ensures read { IsRead D.Disk disk.old disk.new result }
    ensures failed { FailsOnly D.Disk (λ c. AreListed c listed.now) disk.old disk.new result }
{
    let Some(number) = newest_of(listed.as_slice(), dir) else {
        return Ok(None);
    };
    let name = FileName {
        dir,
        kind: Kind::Commit,
        number,
    };
    let bytes = read_file(alloc, disk, name)?;
    Ok(Some(CommitBytes { number, bytes }))
}

/// Reads the bytes of a segment that a commit names. Errors: `Missing` if it is not listed, `Damaged` if it does not
/// have the digest of the commit.
#[tactic(auto, unfolding(crate::specs::Files::segment_bytes))]
pub(crate) fn read_segment<D: Disk>(
    alloc: Global,
    disk: &mut D,
    listed: &Names,
    name: FileName,
    digest: [u8; 32],
) -> Result<Vec<u8>, OpenFault>
    ensures ok { IfOk result (λ v. OfListed D.Disk listed.now disk.old (λ c. segment_bytes name digest (c name)
        ≡ Ok v.items)) }
    ensures digest { IfOk result (λ v. sha256 v.items ≡ digest) }
    ensures err { OfFiles result (λ e. OfListed D.Disk listed.now disk.old (λ c. segment_bytes name digest (c name)
        ≡ Err e)) }
    ensures read { IsRead D.Disk disk.old disk.new result }
    ensures failed { FailsOnly D.Disk (λ c. AreListed c listed.now) disk.old disk.new result }
{
    if !listed.has(name) {
        return Err(OpenFault::Missing { name });
    }
    let bytes = read_file(alloc, disk, name)?;
    if let Err(fault) = check_digest(digest, &bytes) {
        return Err(of_file(name, fault));
    }
    Ok(bytes)
}
