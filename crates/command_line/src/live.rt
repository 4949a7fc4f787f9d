ghost use Rattle.std.specs.Prelude.{◌≡◌, ◌<◌, [], IfOk, IfSome, None, option_map, map, string_bytes, length, IsSome};
ghost use Rattle.clap.specs.Words.{app_of, first_of, found_of, fault_of, matches_of, rows_of};
ghost use Rattle.command_line.specs.Live.{live_command as app, is_set, live_words_of, live_words_of_rows};
ghost use Rattle.command_line.specs.Words.{words_of};
ghost use Rattle.command_line.specs.Views.{live_view};

use crate::words::{read_words, text_under};
use clap::error::ErrorKind;
use clap::{Arg, ArgAction, ArgMatches, Command};
use facet_names::NoMemory;
use std::alloc::{AllocError, Global};

/// The command-line arguments of a process that answers a client, parsed.
#[derive(Debug, Drop)]
pub struct LiveWords {
    /// The directory of the store.
    pub dir: String,
    /// True if the process only reads the store.
    pub reads: bool,
}

fn live_command<'a>(alloc: Global) -> Result<Command<'a>, AllocError>
    ensures { IfOk result (λ c. app_of c ≡ app) }
{
    let live = Arg::new(alloc, "live")
        .long("live")
        .action(ArgAction::SetTrue)
        .required(true);
    let read = Arg::new(alloc, "read")
        .long("read")
        .action(ArgAction::SetTrue);
    let dir = Arg::new(alloc, "DIR").required(true);
    Command::new(alloc, "facets")
        .no_binary_name(true)
        .disable_help_flag(true)
        .arg(live)?
        .arg(read)?
        .arg(dir)
}

// Returns what `clap` finds in the arguments, or `None` for a usage error.
fn live_matches_in<'a>(
    alloc: Global,
    words: &'a [String],
) -> Result<Option<ArgMatches<'a>>, NoMemory>
    ensures some { IfOk result (λ found. IfSome found (λ m. (fault_of app (map string_bytes words.entry.now) ≡ [])
        × (rows_of (found_of m) ≡ matches_of app (map string_bytes words.entry.now)))) }
    ensures none { IfOk result (λ found. found ≡ None → 0 < length (fault_of app (map string_bytes words.entry.now))) }
{
    let command = live_command(alloc)?;
    match command.try_get_matches_from(words) {
        Ok(matches) => Ok(Some(matches)),
        Err(error) => if error.kind() == ErrorKind::OutOfMemory {
            Err(NoMemory)
        } else {
            Ok(None)
        },
    }
}

// Returns true if the flag of this name was given.
fn flag_under(matches: &ArgMatches<'_>, id: &str) -> bool
    ensures { result ≡ is_set (first_of id.now (rows_of (found_of matches.now))) }
{
    match text_under(matches, id) {
        Some(text) => text == "true",
        None => false,
    }
}

fn live_words_in(alloc: Global, matches: &ArgMatches<'_>) -> Result<Option<LiveWords>, NoMemory>
    ensures { IfOk result (λ words. option_map live_view words ≡ live_words_of_rows (rows_of (found_of matches.now))) }
{
    let Some(dir) = text_under(matches, "DIR") else {
        return Ok(None);
    };
    let reads = flag_under(matches, "read");
    let dir = String::from_str(alloc, dir)?;
    Ok(Some(LiveWords { dir, reads }))
}

/// Parses the arguments after the program's name, as `clap` does for a command with one required argument, the
/// directory, the required flag `--live` and the flag `--read`. It returns `None` for a usage error, and for arguments
/// that [`read_words`] takes.
///
/// Errors: out of memory.
#[tactic(auto, unfolding(crate::specs::Live::live_words_of))]
pub fn read_live(alloc: Global, words: &[String]) -> Result<Option<LiveWords>, NoMemory>
    ensures is { IfOk result (λ live. option_map live_view live ≡ live_words_of (map string_bytes words.now)) }
    ensures apart { IfOk result (λ live. IsSome live → words_of (map string_bytes words.now) ≡ None) }
{
    if read_words(alloc, words)?.is_some() {
        return Ok(None);
    }
    match live_matches_in(alloc, words)? {
        Some(matches) => live_words_in(alloc, &matches),
        None => Ok(None),
    }
}
