ghost use Rattle.std.specs.Prelude.{◌≡◌, ◌<◌, ◌≤◌, [], IfOk, IfSome, None, option_map, map, string_bytes, length};
ghost use Rattle.clap.specs.Words.{app_of, first_of, found_of, fault_of, matches_of, rows_of};
ghost use Rattle.command_line.specs.Words.{command as app, given_within, number_within, words_of, words_of_rows};
ghost use Rattle.command_line.specs.Views.{words_view};

use clap::builder::ValueParser;
use clap::error::ErrorKind;
use clap::{Arg, ArgMatches, Command};
use facet_names::NoMemory;
use std::alloc::{AllocError, Global};

/// The command-line arguments, parsed.
#[derive(Debug, Drop)]
pub struct CommandLine {
    /// The directory of the store.
    pub dir: String,
    /// How many documents to generate, 1 to 1,000,000. `None` if a script is read.
    pub generate: Option<u32>,
    /// How many sessions generate them, 1 to 8. It has no meaning if a script is read.
    pub sessions: u32,
}

fn command<'a>(alloc: Global) -> Result<Command<'a>, AllocError>
    ensures { IfOk result (λ c. app_of c ≡ app) }
{
    let generate = Arg::new(alloc, "generate")
        .long("generate")
        .value_parser(ValueParser::unsigned(1, 1_000_000));
    let sessions = Arg::new(alloc, "sessions")
        .long("sessions")
        .value_parser(ValueParser::unsigned(1, 8));
    let dir = Arg::new(alloc, "DIR").required(true);
    Command::new(alloc, "facets")
        .no_binary_name(true)
        .disable_help_flag(true)
        .arg(generate)?
        .arg(sessions)?
        .arg(dir)
}

// Returns what `clap` finds in the arguments, or `None` for a usage error.
fn matches_in<'a>(alloc: Global, words: &'a [String]) -> Result<Option<ArgMatches<'a>>, NoMemory>
    ensures some { IfOk result (λ found. IfSome found (λ m. (fault_of app (map string_bytes words.entry.now) ≡ [])
        × (rows_of (found_of m) ≡ matches_of app (map string_bytes words.entry.now)))) }
    ensures none { IfOk result (λ found. found ≡ None → 0 < length (fault_of app (map string_bytes words.entry.now))) }
{
    let command = command(alloc)?;
    match command.try_get_matches_from(words) {
        Ok(matches) => Ok(Some(matches)),
        Err(error) => if error.kind() == ErrorKind::OutOfMemory {
            Err(NoMemory)
        } else {
            Ok(None)
        },
    }
}

fn number_in(text: &str, low: u32, high: u32) -> Option<u32>
    ensures is { result ≡ number_within low high text.now }
    ensures within { IfSome result (λ n. (low ≤ n) × (n ≤ high)) }
{
    match text.parse::<u64>() {
        Ok(n) => if low as u64 <= n && n <= high as u64 {
            Some(n as u32)
        } else {
            None
        },
        Err(_) => None,
    }
}

// Returns the text under a name.
pub(crate) fn text_under<'a>(matches: &ArgMatches<'a>, id: &str) -> Option<&'a str>
    ensures { option_map (λ s. s.now) result ≡ first_of id.now (rows_of (found_of matches.now)) }
{
    matches.get_str(id)
}

// Returns the number under a name if it is from `low` to `high`, and `Some(None)` if none is given.
fn number_under(matches: &ArgMatches<'_>, id: &str, low: u32, high: u32) -> Option<Option<u32>>
    ensures is { result ≡ given_within low high (first_of id.now (rows_of (found_of matches.now))) }
    ensures within { IfSome result (λ given. IfSome given (λ n. (low ≤ n) × (n ≤ high))) }
{
    match text_under(matches, id) {
        None => Some(None),
        Some(text) => match number_in(text, low, high) {
            Some(n) => Some(Some(n)),
            None => None,
        },
    }
}

// Makes a command line of what was found.
fn line_of(alloc: Global, matches: &ArgMatches<'_>) -> Result<Option<CommandLine>, NoMemory>
    ensures is { IfOk result (λ line. option_map words_view line ≡ words_of_rows (rows_of (found_of matches.now))) }
    ensures generate { IfOk result (λ line. IfSome line (λ l. IfSome l.generate (λ n. (1 ≤ n) × (n ≤ 1000000)))) }
    ensures sessions { IfOk result (λ line. IfSome line (λ l. (1 ≤ l.sessions) × (l.sessions ≤ 8))) }
{
    let Some(dir) = text_under(matches, "DIR") else {
        return Ok(None);
    };
    let Some(generate) = number_under(matches, "generate", 1, 1_000_000) else {
        return Ok(None);
    };
    let Some(sessions) = number_under(matches, "sessions", 1, 8) else {
        return Ok(None);
    };
    let dir = String::from_str(alloc, dir)?;
    Ok(Some(CommandLine {
        dir,
        generate,
        sessions: sessions.unwrap_or(1),
    }))
}

/// Parses the arguments after the program's name, as `clap` does for a command with one required argument, the
/// directory, and the options `--generate` and `--sessions`, each with a number in its range. It returns `None` for a
/// usage error.
///
/// Errors: out of memory.
#[tactic(auto, unfolding(crate::specs::Words::words_of))]
pub fn read_words(alloc: Global, words: &[String]) -> Result<Option<CommandLine>, NoMemory>
    ensures is { IfOk result (λ line. option_map words_view line ≡ words_of (map string_bytes words.now)) }
    ensures generate { IfOk result (λ line. IfSome line (λ l. IfSome l.generate (λ n. (1 ≤ n) × (n ≤ 1000000)))) }
    ensures sessions { IfOk result (λ line. IfSome line (λ l. (1 ≤ l.sessions) × (l.sessions ≤ 8))) }
{
    match matches_in(alloc, words)? {
        Some(matches) => line_of(alloc, &matches),
        None => Ok(None),
    }
}
