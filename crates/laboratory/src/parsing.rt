//! The parts of a step: numbers, file names and crashes.
use anyhow::Context;
use facet_disk::{Dir, FileName, Pick, Unsynced};
use std::alloc::Global;

/// Parses a decimal number.
pub fn number(text: &str) -> anyhow::Result<u64> {
    text.parse().ok().context("a number")
}

/// Parses decimal numbers, separated by spaces.
pub fn numbers(alloc: Global, text: &str) -> anyhow::Result<Vec<u64>> {
    let mut numbers = Vec::new(alloc);
    for word in text.split(' ') {
        if !word.is_empty() {
            numbers.push(number(word)?)?;
        }
    }
    Ok(numbers)
}

/// Splits a text into words, separated by single spaces.
pub fn words(alloc: Global, text: &str) -> anyhow::Result<Vec<String>> {
    let mut words = Vec::new(alloc);
    for word in text.split(' ') {
        words.push(String::from_str(alloc, word)?)?;
    }
    Ok(words)
}

fn find_dir(text: &str) -> Option<Dir> {
    match text {
        "taxonomy" => Some(Dir::Taxonomy),
        "index" => Some(Dir::Index),
        _ => None,
    }
}

fn find_name(text: &str) -> Option<FileName> {
    let (dir, entry) = text.split_once('/')?;
    FileName::from_entry(find_dir(dir)?, entry)
}

/// Parses the name of a directory: `taxonomy` or `index`.
pub fn dir_of(text: &str) -> anyhow::Result<Dir> {
    find_dir(text).context("a directory")
}

/// Parses the name of a file, such as `index/segment-3`.
pub fn name_of(text: &str) -> anyhow::Result<FileName> {
    find_name(text).context("a file")
}

fn unsynced_of(text: &str) -> Option<Unsynced> {
    match text {
        "gone" => Some(Unsynced::Gone),
        "whole" => Some(Unsynced::Whole),
        "zeroed" => Some(Unsynced::Zeroed),
        _ => None,
    }
}

fn are_names_done(text: &str) -> Option<bool> {
    match text {
        "done" => Some(true),
        "undone" => Some(false),
        _ => None,
    }
}

/// Parses after how many calls a disk crashes, and what that leaves, such as `14 gone undone`.
pub fn stop_of(text: &str) -> Option<(u64, Pick)> {
    let (calls, pick) = text.split_once(' ')?;
    let (files, names) = pick.split_once(' ')?;
    let pick = Pick {
        files: unsynced_of(files)?,
        names_done: are_names_done(names)?,
    };
    Some((calls.parse().ok()?, pick))
}
