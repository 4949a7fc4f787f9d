ghost use Rattle.std.specs.Prelude.{ℕ, ◌≡◌, ◌^◌};
ghost use Rattle.std.specs.Option.{option_map};
ghost use Rattle.facet_codec.specs.Lists.{list_at};
ghost use Rattle.seg_grammar.specs.Reading.{Reads, Passes, PassesRecord, PassesTerm, PassesHead, count_at, number_at};
ghost use Rattle.seg_grammar.specs.Reading.{some_at, rising_at, id_at, leaves_at, counted_at, record_at, key_at};
ghost use Rattle.seg_grammar.specs.Reading.{places_at, term_at, head_at, docs_at};

use crate::fault::SegFault;
use facet_codec::Cursor;

/// Reads a vInt of at most `max`.
#[tactic(auto, unfolding(crate::specs::Reading::count_at))]
fn count(cursor: &mut Cursor<'_>, max: u32) -> Result<u32, SegFault>
    ensures { Reads (λ x. x) result cursor.new (count_at max cursor.old) }
{
    let at = cursor.at() as u64;
    let n = cursor.vint()?;
    if n > max {
        return Err(SegFault::Codec { at });
    }
    Ok(n)
}

/// Reads a number that is not 0.
#[tactic(auto, unfolding(crate::specs::Reading::some_at))]
fn some(cursor: &mut Cursor<'_>) -> Result<u32, SegFault>
    ensures { Reads (λ x. x) result cursor.new (some_at cursor.old) }
{
    let at = cursor.at() as u64;
    let n = cursor.u32()?;
    if n == 0 {
        return Err(SegFault::Disorder { at });
    }
    Ok(n)
}

/// Passes `n` numbers.
fn numbers(cursor: &mut Cursor<'_>, n: u32) -> Result<(), SegFault>
    ensures { Passes result cursor.new (list_at number_at n cursor.old) }
{
    for _ in 0..n {
        cursor.u32()?;
    }
    Ok(())
}

/// Passes `n` numbers, each above the one before, and all below `high`.
fn rising(cursor: &mut Cursor<'_>, n: u32, high: u64) -> Result<(), SegFault>
    ensures { Passes result cursor.new (rising_at n 0 high cursor.old) }
{
    let mut low = 0;
    for _ in 0..n {
        let at = cursor.at() as u64;
        let number = cursor.u32()? as u64;
        if number < low || number >= high {
            return Err(SegFault::Disorder { at });
        }
        low = number + 1;
    }
    Ok(())
}

/// Reads a text of 1 to 256 bytes.
#[tactic(auto, unfolding(crate::specs::Reading::id_at))]
fn id<'a>(cursor: &mut Cursor<'a>) -> Result<&'a str, SegFault>
    ensures { Reads (λ x. x.now) result cursor.new (id_at cursor.old) }
{
    let at = cursor.at() as u64;
    let id = cursor.text(256)?;
    if id.is_empty() {
        return Err(SegFault::Disorder { at });
    }
    Ok(id)
}

/// Passes the leaves of a record.
#[tactic(auto, unfolding(crate::specs::Reading::leaves_at))]
fn leaves(cursor: &mut Cursor<'_>) -> Result<(), SegFault>
    ensures { Passes result cursor.new (leaves_at cursor.old) }
{
    let n = count(cursor, 256)?;
    numbers(cursor, n)
}

/// Passes the counted ordinals of a record.
#[tactic(auto, unfolding(crate::specs::Reading::counted_at))]
fn counted(cursor: &mut Cursor<'_>) -> Result<(), SegFault>
    ensures { Passes result cursor.new (counted_at cursor.old) }
{
    let n = count(cursor, 8_192)?;
    rising(cursor, n, 0x1_0000_0000)
}

/// Passes a record, and returns where its counted ordinals begin.
#[tactic(auto, unfolding(crate::specs::Reading::record_at))]
pub(crate) fn record(cursor: &mut Cursor<'_>) -> Result<usize, SegFault>
    ensures { PassesRecord result cursor.old cursor.new (record_at cursor.old) }
{
    cursor.bounds();
    id(cursor)?;
    cursor.text(65_536)?;
    leaves(cursor)?;
    let at = cursor.at();
    counted(cursor)?;
    Ok(at)
}

/// Reads a text that is greater than the one before it.
#[tactic(auto, unfolding(crate::specs::Reading::key_at))]
fn key<'a>(cursor: &mut Cursor<'a>, previous: Option<&str>) -> Result<&'a str, SegFault>
    ensures { Reads (λ x. x.now) result cursor.new (key_at (option_map (λ u. u.now) previous.entry) cursor.old) }
{
    let at = cursor.at() as u64;
    let key = cursor.text(65_568)?;
    if let Some(before) = previous {
        if before >= key {
            return Err(SegFault::Disorder { at });
        }
    }
    Ok(key)
}

/// Passes the places of a term.
#[tactic(auto, unfolding(crate::specs::Reading::places_at))]
fn places(cursor: &mut Cursor<'_>, docs: u32) -> Result<(), SegFault>
    ensures { Passes result cursor.new (places_at docs cursor.old) }
{
    let n = some(cursor)?;
    rising(cursor, n, docs as u64)
}

/// Passes a term, and returns its text.
#[tactic(auto, unfolding(crate::specs::Reading::term_at))]
pub(crate) fn term<'a>(
    cursor: &mut Cursor<'a>,
    previous: Option<&str>,
    docs: u32,
) -> Result<&'a str, SegFault>
    ensures { PassesTerm (λ x. x.now) result cursor.new (term_at
        (option_map (λ u. u.now) previous.entry) docs cursor.old) }
{
    let key = key(cursor, previous)?;
    places(cursor, docs)?;
    Ok(key)
}

/// Passes the first bytes, which are the same in every segment.
#[tactic(auto, unfolding(crate::specs::Reading::head_at))]
pub(crate) fn head(cursor: &mut Cursor<'_>) -> Result<(), SegFault>
    ensures { PassesHead result cursor.new (head_at cursor.old) }
{
    match cursor.u32() {
        Ok(magic) => {
            if magic != 0x4653_4547 {
                return Err(SegFault::BadMagic);
            }
        }
        Err(_) => return Err(SegFault::BadMagic),
    }
    let version = cursor.u32()?;
    if version != 1 {
        return Err(SegFault::BadVersion { v: version as u64 });
    }
    Ok(())
}

/// Reads the number of documents.
#[tactic(auto, unfolding(crate::specs::Reading::docs_at))]
pub(crate) fn docs(cursor: &mut Cursor<'_>) -> Result<u32, SegFault>
    ensures { Reads (λ x. x) result cursor.new (docs_at cursor.old) }
{
    let at = cursor.at() as u64;
    let n = cursor.u32()?;
    if n == 0 {
        return Err(SegFault::Disorder { at });
    }
    if n > 1_000_000 {
        return Err(SegFault::Codec { at });
    }
    Ok(n)
}
