ghost use Rattle.std.specs.Prelude.{◌≡◌, ◌==◌, ◌<◌, ◌∷◌, IfOk, option_map, length};
ghost use Rattle.std.specs.List.{position};
ghost use Rattle.serde_json.specs.View.{view};
ghost use Rattle.facet_words.specs.Lines.{lines_of, line_data};

use facet_names::NoMemory;
use memchr::memchr;
use serde_json::Value;
use std::alloc::Global;

fn feed_at(rest: &[u8]) -> Option<usize>
    ensures { result ≡ position (λ b. b == 10) rest.now }
{
    memchr(b'\n', rest)
}

/// Returns the first line, and what follows its line feed. It copies nothing.
pub fn cut_line(rest: &[u8]) -> (&[u8], &[u8])
    requires { 0 < length rest.now }
    ensures cut { lines_of rest.now ≡ result.0.now ∷ lines_of result.1.now }
    ensures shorter { length result.1.now < length rest.now }
{
    match feed_at(rest) {
        Some(at) => {
            let (line, _) = rest.split_at(at);
            let (_, after) = rest.split_at(at + 1);
            (line, after)
        }
        None => (rest, &[]),
    }
}

/// Returns the JSON value of a line, or `None` if the bytes are not JSON.
///
/// Errors: out of memory.
pub fn line_value(alloc: Global, line: &[u8]) -> Result<Option<Value>, NoMemory>
    ensures { IfOk result (λ o. option_map view o ≡ line_data line.now) }
{
    match Value::from_slice(alloc, line) {
        Ok(value) => Ok(Some(value)),
        Err(e) => {
            if e.is_memory() {
                Err(NoMemory)
            } else {
                Ok(None)
            }
        }
    }
}
