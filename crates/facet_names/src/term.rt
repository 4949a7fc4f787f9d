ghost use Rattle.std.specs.Prelude.{◌≡◌, ◌==◌, ◌<◌, ◌++◌, ◌∷◌, length, List, ℕ, string_bytes, IfOk, OnOk, OnErr};
ghost use Rattle.std.specs.Prelude.{MatchOption};
ghost use Rattle.std.specs.List.{list_any};
ghost use Rattle.facet_names.specs.Paths.{texts};
ghost use Rattle.facet_names.specs.Blocks.{IsBlock, parts_of};
ghost use Rattle.facet_names.specs.Terms.{HasSome, behind, escaped, is_special, term_text};

use crate::block::cut;
use crate::fault::NoMemory;
use std::alloc::Global;
use std::mem;

const ESCAPE: char = '\u{1e}';

const SEPARATOR: char = '\u{1f}';

fn is_special(ch: char) -> bool
    ensures { result ≡ is_special ch }
{
    ch == ESCAPE || ch == SEPARATOR
}

fn has_special(part: &str) -> bool
    ensures { result ≡ list_any is_special part.now }
{
    part.as_bytes()
        .iter()
        .any(|byte| *byte == 30 || *byte == 31)
}

fn push_each(text: &mut String, part: &str) -> Result<(), NoMemory>
    ensures ok { OnOk result (string_bytes text.new ≡ string_bytes text.old ++ escaped part.now) }
    ensures err { OnErr result (HasSome (escaped part.now) (string_bytes text.old) (string_bytes text.new)) }
{
    for ch in part.chars() {
        if is_special(ch) {
            text.push(ESCAPE)?;
        }
        text.push(ch)?;
    }
    Ok(())
}

fn push_escaped(text: &mut String, part: &str) -> Result<(), NoMemory>
    ensures ok { OnOk result (string_bytes text.new ≡ string_bytes text.old ++ escaped part.now) }
    ensures err { OnErr result (HasSome (escaped part.now) (string_bytes text.old) (string_bytes text.new)) }
{
    if has_special(part) {
        return push_each(text, part);
    }
    text.push_str(part)?;
    Ok(())
}

/// Appends the component at a place of a path, escaped, and after a separator unless it is the first. So a term text
/// can be made component by component. A component without a character to escape is copied whole.
///
/// Errors: out of memory; then a prefix of what was to be appended may have been appended.
pub fn push_part(text: &mut String, at: usize, part: &str) -> Result<(), NoMemory>
    ensures ok { OnOk result (string_bytes text.new ≡ string_bytes text.old ++ behind at part.now) }
    ensures err { OnErr result (HasSome (behind at part.now) (string_bytes text.old) (string_bytes text.new)) }
{
    if at > 0 {
        text.push(SEPARATOR)?;
    }
    push_escaped(text, part)
}

/// Returns the term text of a block's components. Errors: out of memory.
pub fn joined(alloc: Global, block: &str) -> Result<String, NoMemory>
    requires { IsBlock block.now }
    ensures { IfOk result (λ text. string_bytes text ≡ term_text (parts_of block.now)) }
{
    let mut text = String::with_capacity(alloc, block.len())?;
    let mut at = 0;
    let mut rest = block;
    while !rest.is_empty() {
        let (part, behind) = cut(rest);
        push_part(&mut text, at, part)?;
        rest = behind;
        at += 1;
    }
    Ok(text)
}

/// Returns the components that a text joins, or `None` if an escape precedes neither of the two characters. Errors: out
/// of memory.
pub fn split(alloc: Global, text: &str) -> Result<Option<Vec<String>>, NoMemory>
    ensures { IfOk result
        (λ o. MatchOption o
        ((parts : List (List ℕ)) → ¬ (text.now ≡ term_text parts))
        (λ v. (0 < length v.items) × (text.now ≡ term_text (texts v.items)))) }
{
    let mut parts = Vec::new(alloc);
    let mut part = String::new(alloc);
    let mut after_escape = false;
    for ch in text.chars() {
        if !is_special(ch) {
            if after_escape {
                return Ok(None);
            }
            part.push(ch)?;
        } else if after_escape {
            part.push(ch)?;
            after_escape = false;
        } else if ch == ESCAPE {
            after_escape = true;
        } else {
            parts.push(mem::replace(&mut part, String::new(alloc)))?;
        }
    }
    if after_escape {
        return Ok(None);
    }
    parts.push(part)?;
    Ok(Some(parts))
}
