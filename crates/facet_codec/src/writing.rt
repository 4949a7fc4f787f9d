ghost use Rattle.std.specs.Prelude.{◌<◌, ◌^◌, length};
ghost use Rattle.facet_codec.specs.Spelling.{one_byte, be32, be64, vint, text};
ghost use Rattle.facet_codec.specs.Writing.{Appends};

use crate::fault::NoMemory;

/// Appends one byte. Errors: out of memory.
pub fn put_u8(out: &mut Vec<u8>, v: u8) -> Result<(), NoMemory>
    ensures { Appends (one_byte v) result out.old.items out.new.items }
{
    out.push(v)?;
    Ok(())
}

/// Appends four bytes, big-endian. Errors: out of memory.
pub fn put_u32(out: &mut Vec<u8>, v: u32) -> Result<(), NoMemory>
    ensures { Appends (be32 v) result out.old.items out.new.items }
{
    out.extend_from_slice(&v.to_be_bytes())?;
    Ok(())
}

/// Appends eight bytes, big-endian. Errors: out of memory.
pub fn put_u64(out: &mut Vec<u8>, v: u64) -> Result<(), NoMemory>
    ensures { Appends (be64 v) result out.old.items out.new.items }
{
    out.extend_from_slice(&v.to_be_bytes())?;
    Ok(())
}

/// Appends a vInt of one to five bytes. It reserves capacity for five. Errors: out of memory.
#[tactic(auto, unfolding(crate::specs::Spelling::groups))]
pub fn put_vint(out: &mut Vec<u8>, v: u32) -> Result<(), NoMemory>
    ensures { Appends (vint v) result out.old.items out.new.items }
{
    out.reserve(5)?;
    let mut left = v;
    for _ in 0..5u32 {
        if left < 128 {
            out.push_reserved(left as u8);
            return Ok(());
        }
        out.push_reserved((left % 128) as u8 + 128);
        left /= 128;
    }
    Ok(())
}

/// Appends a text: its length as a vInt, and its bytes. Errors: out of memory; then nothing was appended.
pub fn put_text(out: &mut Vec<u8>, v: &str) -> Result<(), NoMemory>
    requires { length v.now < 2 ^ 32 }
    ensures { Appends (text v.now) result out.old.items out.new.items }
{
    let start = out.len();
    put_vint(out, v.len() as u32)?;
    if out.extend_from_slice(v.as_bytes()).is_err() {
        out.truncate(start);
        return Err(NoMemory);
    }
    Ok(())
}
