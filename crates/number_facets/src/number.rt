ghost use Rattle.std.specs.Prelude.{◌≡◌, ◌↔◌, ℤ, Some, IsTrue};
ghost use Rattle.std.specs.Char.{is_ascii_digit};
ghost use Rattle.std.specs.List.{list_all};
ghost use Rattle.std.specs.Fmt.{signed_decimal};
ghost use Rattle.number_facets.specs.Numbers.{are_plain_digits, is_i64, number_of, small_number_of};
ghost use Rattle.number_facets.specs.Shapes.{is_number_shaped};

fn are_digits(text: &[u8]) -> bool
    ensures { result ≡ list_all is_ascii_digit text.now }
{
    text.iter().all(|digit| digit.is_ascii_digit())
}

// Returns whether there are digits, and no leading zero.
fn are_plain_digits(text: &[u8]) -> bool
    ensures { result ≡ are_plain_digits text.now }
{
    if text.is_empty() || !are_digits(text) {
        return false;
    }
    text[0] != b'0' || text.len() == 1
}

// Returns whether it is an optional minus and such digits, which are not 0 after a minus.
fn is_number_shaped(text: &[u8]) -> bool
    ensures { result ≡ is_number_shaped text.now }
{
    if text.is_empty() {
        return false;
    }
    if text[0] != b'-' {
        return are_plain_digits(text);
    }
    let digits = &text[1..];
    are_plain_digits(digits) && digits[0] != b'0'
}

// Returns the number of a text.
fn number_in(text: &str) -> Option<i64>
    ensures { result ≡ number_of text.now }
{
    if !is_number_shaped(text.as_bytes()) {
        return None;
    }
    match text.parse() {
        Ok(number) => Some(number),
        Err(_) => None,
    }
}

/// Reads a number: an optional `-` and decimal digits, without a leading zero, a `+`, a blank or a point, and not `-0`.
/// It returns `None` for any other text, and for a number that does not fit into an `i64`. So a number has one text,
/// the one that `{}` writes. It takes time proportional to the length of the text, and allocates nothing.
pub fn read_number(text: &str) -> Option<i64>
    ensures number { result ≡ number_of text.now }
    ensures decimal { (v : ℤ) → (result ≡ Some v) ↔ ((text.now ≡ signed_decimal v) × IsTrue (is_i64 v)) }
{
    number_in(text)
}

/// Reads a number as [`read_number`] does. It returns `None` if the number does not fit into an `i32`.
pub fn read_small_number(text: &str) -> Option<i32>
    ensures { result ≡ small_number_of text.now }
{
    let number = read_number(text)?;
    if number < i32::MIN as i64 || number > i32::MAX as i64 {
        return None;
    }
    Some(number as i32)
}
