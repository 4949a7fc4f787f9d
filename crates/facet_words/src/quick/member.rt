ghost use Rattle.std.specs.Prelude.{◌≡◌, ◌<◌, Some, IfOk, IfSome, IsTrue, codes, length};
ghost use Rattle.serde_json.specs.Data.{unsigned};
ghost use Rattle.serde_json.specs.Read.{number_of};
ghost use Rattle.facet_words.specs.Quick.{IsMember};

use crate::quick::found::Found;
use crate::quick::texts::{facets_next, text_next};
use facet_names::NoMemory;
use fast_float::Numeral;
use json::{Reader, Token};
use std::alloc::Global;

// The whole number of 64 bits that a number's text is, or None, which says nothing.
fn whole_of(text: &str) -> Option<u64>
    ensures { IfSome result (λ n. number_of text.now ≡ Some (unsigned n)) }
{
    let bytes = text.as_bytes();
    if bytes.is_empty() || bytes[0] == b'-' {
        return None;
    }
    Numeral::scan(bytes).to_u64()
}

// Each of these reads the value of a key, and finds it there. False says nothing.
fn session_next<'a>(reader: &mut Reader<'a>, found: &mut Found<'a>) -> bool
    ensures { IsTrue result → IsMember (codes "s") reader.old reader.new found.old found.new }
{
    let Some(Token::Number(text)) = reader.next() else {
        return false;
    };
    let Some(session) = whole_of(text) else {
        return false;
    };
    found.session = Some(session);
    true
}

fn command_next<'a>(reader: &mut Reader<'a>, found: &mut Found<'a>) -> bool
    ensures { IsTrue result → IsMember (codes "cmd") reader.old reader.new found.old found.new }
{
    let Some(text) = text_next(reader) else {
        return false;
    };
    if text != "add" {
        return false;
    }
    found.adds = true;
    true
}

fn id_next<'a>(reader: &mut Reader<'a>, found: &mut Found<'a>) -> bool
    ensures { IsTrue result → IsMember (codes "id") reader.old reader.new found.old found.new }
{
    let Some(text) = text_next(reader) else {
        return false;
    };
    found.id = Some(text);
    true
}

fn document_text_next<'a>(reader: &mut Reader<'a>, found: &mut Found<'a>) -> bool
    ensures { IsTrue result → IsMember (codes "text") reader.old reader.new found.old found.new }
{
    let Some(text) = text_next(reader) else {
        return false;
    };
    found.text = Some(text);
    true
}

fn labels_next<'a>(
    alloc: Global,
    reader: &mut Reader<'a>,
    found: &mut Found<'a>,
) -> Result<bool, NoMemory>
    ensures { IfOk result (λ b. IsTrue b → IsMember (codes "facets") reader.old reader.new found.old found.new) }
{
    let Some(facets) = facets_next(alloc, reader)? else {
        return Ok(false);
    };
    found.facets = Some(facets);
    Ok(true)
}

/// Reads the value of a key and stores it. `false` means that the line has to be read from its JSON value.
pub(crate) fn member_next<'a>(
    alloc: Global,
    reader: &mut Reader<'a>,
    key: &str,
    found: &mut Found<'a>,
) -> Result<bool, NoMemory>
    ensures { IfOk result (λ b. IsTrue b → IsMember key.now reader.old reader.new found.old found.new) }
{
    match key {
        "s" => Ok(session_next(reader, found)),
        "cmd" => Ok(command_next(reader, found)),
        "id" => Ok(id_next(reader, found)),
        "text" => Ok(document_text_next(reader, found)),
        "facets" => labels_next(alloc, reader, found),
        _ => Ok(false),
    }
}
