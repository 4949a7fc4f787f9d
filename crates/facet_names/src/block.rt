//! The components of a path in one text, each after its length.
ghost use Rattle.std.specs.Prelude.{◌≡◌, ◌<◌, ◌≤◌, ◌++◌, ◌∷◌, length, drop, string_bytes, IfOk, OnOk};
ghost use Rattle.std.specs.Cmp.Lexicographic.{slice_cmp};
ghost use Rattle.std.specs.Ordering.{nat_cmp};
ghost use Rattle.facet_names.specs.Paths.{texts, is_under, path_cmp};
ghost use Rattle.facet_names.specs.Faults.{IsPath, part_fault};
ghost use Rattle.facet_names.specs.Blocks.{IsBlock, block, headed, parts_of};

use crate::fault::NoMemory;
use std::alloc::Global;
use std::cmp::Ordering;

/// Splits a block after its first component: the component, and the block of the others. It allocates nothing.
pub fn cut(text: &str) -> (&str, &str)
    requires is { IsBlock text.now }
    requires some { 0 < length text.now }
    ensures parts { parts_of text.now ≡ result.0.now ∷ parts_of result.1.now }
    ensures rest { IsBlock result.1.now }
    ensures filled { 0 < length result.0.now }
    ensures short { length result.0.now ≤ 1024 }
    ensures shorter { length result.1.now < length text.now }
{
    let bytes = text.as_bytes();
    let len = bytes[0] as usize * 32 + bytes[1] as usize;
    let (_, behind) = text.split_at(2);
    behind.split_at(len)
}

fn push(text: &mut String, part: &str) -> Result<(), NoMemory>
    requires { length part.now ≤ 1024 }
    ensures { OnOk result (string_bytes text.new ≡ string_bytes text.old ++ headed part.now) }
{
    let len = part.len();
    text.push((len / 32) as u8 as char)?;
    text.push((len % 32) as u8 as char)?;
    text.push_str(part)?;
    Ok(())
}

/// Returns the block of the components, in one allocation of exactly its length. Errors: out of memory.
pub fn block_of(alloc: Global, parts: &[String]) -> Result<String, NoMemory>
    requires { IsPath (texts parts.now) }
    ensures { IfOk result (λ text. string_bytes text ≡ block (texts parts.now)) }
{
    let mut size = 0;
    for part in parts {
        size += part.len() + 2;
    }
    let mut text = String::with_capacity(alloc, size)?;
    for part in parts {
        push(&mut text, part.as_str())?;
    }
    Ok(text)
}

/// Returns a block with one more component at its end. Errors: out of memory.
pub fn block_with(alloc: Global, first: &str, part: &str) -> Result<String, NoMemory>
    requires is { IsBlock first.now }
    requires short { length part.now ≤ 1024 }
    ensures { IfOk result (λ text. string_bytes text ≡ first.now ++ headed part.now) }
{
    let mut text = String::with_capacity(alloc, first.len() + 2 + part.len())?;
    text.push_str(first)?;
    push(&mut text, part)?;
    Ok(text)
}

/// Counts the components of a block, at most 32. It allocates nothing.
pub fn size(block: &str) -> usize
    requires { IsBlock block.now }
    ensures { result ≡ length (parts_of block.now) }
{
    let mut size = 0;
    let mut rest = block;
    while !rest.is_empty() {
        rest = cut(rest).1;
        size += 1;
    }
    size
}

/// Returns the block without its first `n` components. It allocates nothing.
pub fn skip(block: &str, n: usize) -> &str
    requires is { IsBlock block.now }
    requires within { n ≤ length (parts_of block.now) }
    ensures is { IsBlock result.now }
    ensures parts { parts_of result.now ≡ drop n (parts_of block.now) }
{
    let mut rest = block;
    for _ in 0..n {
        rest = cut(rest).1;
    }
    rest
}

/// Returns whether the components of the first block are the first ones of the second.
pub fn is_front(front: &str, block: &str) -> bool
    requires front { IsBlock front.now }
    requires block { IsBlock block.now }
    ensures { result ≡ is_under (parts_of block.now) (parts_of front.now) }
{
    let mut left = front;
    let mut rest = block;
    while !left.is_empty() {
        if rest.is_empty() {
            return false;
        }
        let (wanted, behind_wanted) = cut(left);
        let (part, behind) = cut(rest);
        if wanted != part {
            return false;
        }
        left = behind_wanted;
        rest = behind;
    }
    true
}

/// Compares two blocks component by component, by bytes.
pub fn compared(one: &str, other: &str) -> Ordering
    requires one { IsBlock one.now }
    requires other { IsBlock other.now }
    ensures { result ≡ path_cmp (parts_of one.now) (parts_of other.now) }
{
    let mut mine = one;
    let mut theirs = other;
    while !mine.is_empty() && !theirs.is_empty() {
        let (my_part, behind_mine) = cut(mine);
        let (their_part, behind_theirs) = cut(theirs);
        let order = my_part.cmp(their_part);
        if order.is_ne() {
            return order;
        }
        mine = behind_mine;
        theirs = behind_theirs;
    }
    mine.len().cmp(&theirs.len())
}
