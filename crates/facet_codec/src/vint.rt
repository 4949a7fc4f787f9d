ghost use Rattle.std.specs.Prelude.{◌+◌, ◌<◌, ◌≤◌, ◌^◌, length, IfOk};
ghost use Rattle.facet_codec.specs.Reading.{Gives, groups_at, vint_from};
ghost use Rattle.facet_codec.specs.Spelling.{bound};

use crate::fault::CodecFault;

/// A number, where it ends, and the bytes after it.
#[derive(Drop)]
pub(crate) struct Found<'a> {
    pub(crate) value: u32,
    pub(crate) at: usize,
    pub(crate) rest: &'a [u8],
}

/// Reads the number at the beginning of the bytes, which begin at `at`. Most numbers are one byte, which is tried
/// first.
#[tactic(auto, unfolding(crate::specs::Reading::vint_from))]
pub(crate) fn read_vint(at: usize, bytes: &[u8]) -> Result<Found<'_>, CodecFault>
    requires { at + length bytes.now < 2 ^ 64 }
    ensures found { Gives (λ x. (x.value, record { at = x.at; rest = x.rest.now })) result (vint_from at bytes.now) }
    ensures size { IfOk result (λ x. x.at + length x.rest.now < 2 ^ 64) }
{
    match bytes {
        [] => Err(CodecFault::Short { at: at as u64 }),
        [byte, rest @ ..] if *byte < 128 => Ok(Found {
            value: *byte as u32,
            at: at + 1,
            rest,
        }),
        [byte, rest @ ..] => {
            let high = read_groups(at as u64, 3, at + 1, rest)?;
            Ok(Found {
                value: (*byte - 128) as u32 + 128 * high.value,
                at: high.at,
                rest: high.rest,
            })
        }
    }
}

// Reads the groups of a number after its first one, with at most `more` of them after the next.
#[tactic(auto, using(crate::proofs::Groups::bound_below, crate::proofs::Groups::sixteen_le, crate::proofs::Groups::bound_more), unfolding(crate::specs::Reading::groups_at))]
fn read_groups(start: u64, more: u32, at: usize, bytes: &[u8]) -> Result<Found<'_>, CodecFault>
    requires few { more ≤ 3 }
    requires fits { at + length bytes.now < 2 ^ 64 }
    ensures found { Gives (λ x. (
      x.value,
      record {
        at = x.at;
        rest = x.rest.now;
      },
    )) result (groups_at start more at bytes.now) }
    ensures value { IfOk result (λ x. x.value < bound more) }
    ensures size { IfOk result (λ x. x.at + length x.rest.now < 2 ^ 64) }
{
    let [byte, rest @ ..] = bytes else {
        return Err(CodecFault::Short { at: start });
    };
    if more == 0 && *byte > 15 {
        return Err(CodecFault::OutOfRange { at: start });
    }
    if *byte < 128 {
        if *byte == 0 {
            return Err(CodecFault::LongSpelling { at: start });
        }
        return Ok(Found {
            value: *byte as u32,
            at: at + 1,
            rest,
        });
    }
    let high = read_groups(start, more - 1, at + 1, rest)?;
    Ok(Found {
        value: (*byte - 128) as u32 + 128 * high.value,
        at: high.at,
        rest: high.rest,
    })
}
