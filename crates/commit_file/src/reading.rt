ghost use Rattle.commit_file.specs.Reading.{Reads, Passes, word_at, version_at, number_at, head_at, some_at};
ghost use Rattle.commit_file.specs.Reading.{digest_at};

use crate::fault::FileFault;
use facet_codec::Cursor;

/// Reads this number, in four bytes.
#[tactic(auto, unfolding(crate::specs::Reading::word_at))]
fn word(cursor: &mut Cursor<'_>, wanted: u32) -> Result<(), FileFault>
    ensures { Passes result cursor.new (word_at wanted cursor.old) }
{
    let at = cursor.at() as u64;
    let n = cursor.u32()?;
    if n != wanted {
        return Err(FileFault::Malformed { at });
    }
    Ok(())
}

/// Reads a version from 1 to the newest one.
#[tactic(auto, unfolding(crate::specs::Reading::version_at))]
fn version(cursor: &mut Cursor<'_>, newest: u32) -> Result<u32, FileFault>
    ensures { Reads (λ x. x) result cursor.new (version_at newest cursor.old) }
{
    let at = cursor.at() as u64;
    let n = cursor.u32()?;
    if n == 0 || n > newest {
        return Err(FileFault::Malformed { at });
    }
    Ok(n)
}

/// Reads the number of the file's name, which is not 0.
#[tactic(auto, unfolding(crate::specs::Reading::number_at))]
fn number(cursor: &mut Cursor<'_>, wanted: u64) -> Result<(), FileFault>
    ensures { Passes result cursor.new (number_at wanted cursor.old) }
{
    let at = cursor.at() as u64;
    let n = cursor.u64()?;
    if n == 0 || n != wanted {
        return Err(FileFault::Malformed { at });
    }
    Ok(())
}

/// Reads the kind of the file, its version, which is at most the newest one, and the number of the file's name. Returns
/// the version.
#[tactic(auto, unfolding(crate::specs::Reading::head_at))]
pub(crate) fn head(
    cursor: &mut Cursor<'_>,
    kind: u32,
    newest: u32,
    wanted: u64,
) -> Result<u32, FileFault>
    ensures { Reads (λ x. x) result cursor.new (head_at kind newest wanted cursor.old) }
{
    word(cursor, kind)?;
    let version = version(cursor, newest)?;
    number(cursor, wanted)?;
    Ok(version)
}

/// Reads a number that is not 0.
#[tactic(auto, unfolding(crate::specs::Reading::some_at))]
pub(crate) fn some(cursor: &mut Cursor<'_>) -> Result<u32, FileFault>
    ensures { Reads (λ x. x) result cursor.new (some_at cursor.old) }
{
    let at = cursor.at() as u64;
    let n = cursor.u32()?;
    if n == 0 {
        return Err(FileFault::Malformed { at });
    }
    Ok(n)
}

/// Reads the digest of a segment.

pub(crate) fn digest(cursor: &mut Cursor<'_>) -> Result<[u8; 32], FileFault>
    ensures { Reads (λ x. x) result cursor.new (digest_at cursor.old) }
{
    let bytes = cursor.bytes(32)?;
    let mut digest = [0u8; 32];
    digest.copy_from_slice(bytes);
    Ok(digest)
}
