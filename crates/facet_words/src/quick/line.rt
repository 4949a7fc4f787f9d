ghost use Rattle.std.specs.Prelude.{◌≡◌, Some, Ok, IfOk, IfSome};
ghost use Rattle.serde_json.specs.Data.{Members, object};
ghost use Rattle.facet_words.specs.Quick.{AreMembers, HasFound};
ghost use Rattle.facet_words.specs.CommandViews.{order_view};
ghost use Rattle.facet_words.specs.Scripts.{line_at, line_of};

use crate::command::{Command, Order};
use crate::parts::new_document;
use crate::quick::found::Found;
use crate::quick::member::member_next;
use facet_names::NoMemory;
use json::{Reader, Scratch, Token};
use simdutf8::basic::from_utf8;
use std::alloc::Global;

// The members after an opening brace, or None, which says nothing.
fn members_next<'a>(alloc: Global, reader: &mut Reader<'a>) -> Result<Option<Found<'a>>, NoMemory>
    ensures { IfOk result (λ o. IfSome o (λ f. AreMembers reader.old reader.new f)) }
{
    let mut found = Found {
        session: None,
        adds: false,
        id: None,
        text: None,
        facets: None,
    };
    while let Ok(key) = reader.next_key() {
        let Some(key) = key else {
            return Ok(Some(found));
        };
        if !member_next(alloc, reader, key, &mut found)? {
            return Ok(None);
        }
    }
    Ok(None)
}

// The order of the members in which this was found, if nothing is missing; or None, which says nothing.
fn order_with(alloc: Global, line: u64, found: Found<'_>) -> Result<Option<Order>, NoMemory>
    ensures { IfOk result (λ o. IfSome o
        (λ o. (ms : Members) → HasFound ms found.entry → line_of line (object ms) ≡ Ok (Some (order_view o)))) }
{
    let Found {
        session: Some(session),
        adds: true,
        id: Some(id),
        text,
        facets,
    } = found
    else {
        return Ok(None);
    };
    let text = text.unwrap_or("");
    let facets = facets.unwrap_or(Vec::new(alloc));
    if session < 1 || 64 < session || id.is_empty() || 256 < id.len() {
        return Ok(None);
    }
    if 65_536 < text.len() || 256 < facets.len() {
        return Ok(None);
    }
    let doc = new_document(alloc, id, text, facets)?;
    Ok(Some(Order {
        session: session as u32,
        line,
        command: Command::Add { doc },
    }))
}

/// Returns the command of a line that adds a document in the usual form. `None` means that the line has to be read from
/// its JSON value.
///
/// Errors: out of memory.
pub fn read_add(
    alloc: Global,
    scratch: &mut Scratch,
    line: u64,
    bytes: &[u8],
) -> Result<Option<Order>, NoMemory>
    ensures { IfOk result (λ o. IfSome o (λ o. line_at line bytes.now ≡ Ok (Some (order_view o)))) }
{
    let Ok(text) = from_utf8(bytes) else {
        return Ok(None);
    };
    let mut reader = Reader::new(text, scratch)?;
    let Some(Token::BeginObject) = reader.next() else {
        return Ok(None);
    };
    let Some(found) = members_next(alloc, &mut reader)? else {
        return Ok(None);
    };
    if reader.next().is_some() {
        return Ok(None);
    }
    order_with(alloc, line, found)
}
