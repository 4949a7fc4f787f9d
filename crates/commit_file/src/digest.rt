ghost use Rattle.std.specs.Prelude.{◌≡◌, ◌≢◌, IfOk, IfErr, OnOk};
ghost use Rattle.sha2.specs.Sha256.{sha256};
ghost use Rattle.commit_file.specs.declared.fault.FileFault.TheVariants.{Damaged};
ghost use Rattle.commit_file.specs.Spelling.{with_digest};
ghost use Rattle.commit_file.specs.Reading.{Gives, unsealed};

use crate::fault::FileFault;
use facet_codec::NoMemory;
use sha2::{Digest, Sha256};

const SIZE: usize = 32;

/// Returns the SHA-256 digest of bytes (FIPS 180-4). It reads them once, and allocates nothing.
pub fn digest_of(bytes: &[u8]) -> [u8; 32]
    ensures { result ≡ sha256 bytes.now }
{
    Sha256::digest(bytes)
}

/// Checks that bytes have the digest that was stored. It reads them once, and allocates nothing. Errors: `Damaged` with
/// both digests.
pub fn check_digest(kept: [u8; 32], bytes: &[u8]) -> Result<(), FileFault>
    ensures ok { IfOk result (λ _. sha256 bytes.now ≡ kept) }
    ensures err { IfErr result (λ e. e ≡ Damaged kept (sha256 bytes.now)) }
    ensures apart { IfErr result (λ _. sha256 bytes.now ≢ kept) }
{
    let found = digest_of(bytes);
    if found == kept {
        Ok(())
    } else {
        Err(FileFault::Damaged { kept, found })
    }
}

/// Returns the bytes before the digest at the end, if they have that digest.
#[tactic(auto, unfolding(crate::specs::Reading::unsealed))]
pub(crate) fn body(bytes: &[u8]) -> Result<&[u8], FileFault>
    ensures { Gives (λ b. b.now) result (unsealed bytes.now) }
{
    if bytes.len() < SIZE {
        return Err(FileFault::Malformed {
            at: bytes.len() as u64,
        });
    }
    let (body, last) = bytes.split_at(bytes.len() - SIZE);
    let mut kept = [0u8; 32];
    kept.copy_from_slice(last);
    check_digest(kept, body)?;
    Ok(body)
}

/// Appends the digest of the bytes.
pub(crate) fn seal(bytes: &mut Vec<u8>) -> Result<(), NoMemory>
    ensures { OnOk result (bytes.new.items ≡ with_digest bytes.old.items) }
{
    let digest = digest_of(bytes);
    bytes.extend_from_slice(&digest)?;
    Ok(())
}
