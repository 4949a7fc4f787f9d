//! Lists in shared pieces, at the sizes where a piece is nearly full, full, and followed by others.
use shared_list::Shared;
use std::alloc::Global;
use std::test::Fail;

fn push(list: &mut Shared<u32>, number: u32) -> Result<(), Fail> {
    if list.len() >= 10_000 {
        return Err("too long".into());
    }
    list.push(number)?;
    Ok(())
}

fn set(list: &mut Shared<u32>, at: usize, number: u32) -> Result<(), Fail> {
    if at >= list.len() {
        return Err("too short".into());
    }
    list.set(at, number)?;
    Ok(())
}

// The numbers from 0 on, so many of them.
fn numbers(alloc: Global, count: u32) -> Result<Shared<u32>, Fail> {
    let mut list = Shared::new(alloc);
    for number in 0..count {
        push(&mut list, number)?;
    }
    Ok(list)
}

// The entries, read by a walk over the pieces.
fn walked(alloc: Global, list: &Shared<u32>) -> Result<Vec<u32>, Fail> {
    let mut entries = Vec::new(alloc);
    for number in 0..4usize {
        entries.extend_from_slice(list.piece(number))?;
    }
    Ok(entries)
}

// Whether these are the numbers from 0 on, except a 7 at one place.
fn are_numbers(entries: &[u32], seven: usize) -> bool {
    for (at, entry) in entries.iter().enumerate() {
        if *entry as usize != if at == seven { 7 } else { at } {
            return false;
        }
    }
    true
}

// Whether the list has so many numbers from 0 on, except a 7 at one place.
fn has_numbers(alloc: Global, list: &Shared<u32>, count: u32, seven: usize) -> Result<bool, Fail> {
    let entries = walked(alloc, list)?;
    let mut read = Vec::new(alloc);
    for at in 0..list.len() {
        read.push(list.get(at))?;
    }
    Ok(entries.len() == count as usize && entries == read && are_numbers(&entries, seven))
}

// Whether a list and one that shares its pieces change each on its own, and then the second one in place.
fn change_alone(alloc: Global, count: u32) -> Result<bool, Fail> {
    let list = numbers(alloc, count)?;
    let mut other = list.share()?;
    let more = count.saturating_add(1);
    set(&mut other, 1_000, 7)?;
    push(&mut other, count)?;
    let both = has_numbers(alloc, &list, count, 7)? && has_numbers(alloc, &other, more, 1_000)?;
    drop(list);
    set(&mut other, 1_000, 1_000)?;
    Ok(both && has_numbers(alloc, &other, more, 7)?)
}

fn lists_change_alone(alloc: Global) -> Result<bool, Fail> {
    Ok(change_alone(alloc, 1_023)? && change_alone(alloc, 1_024)? && change_alone(alloc, 2_049)?)
}

#[test]
fn lists_that_share_pieces(rt: HostRuntime) -> Result<(), Fail> {
    assert!(rt; lists_change_alone(rt.alloc())?);
    Ok(())
}
