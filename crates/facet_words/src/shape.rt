ghost use Rattle.std.specs.Prelude.{◌≡◌, ◌≤◌, [], false, Option, IfOk, IfSome, option_map, map, length, string_bytes};
ghost use Rattle.std.specs.List.{list_any, list_all};
ghost use Rattle.std.specs.BTreeMap.{keys};
ghost use Rattle.std.specs.Str.{bytes_eq};
ghost use Rattle.serde_json.specs.Data.{Data};
ghost use Rattle.serde_json.specs.Find.{as_bool, as_str};
ghost use Rattle.serde_json.specs.View.{view};
ghost use Rattle.facet_names.specs.Paths.{texts};
ghost use Rattle.facet_words.specs.Shapes.{key, key_or, whole, signed, whole_within, text_within, list_of};
ghost use Rattle.facet_words.specs.Shapes.{list_within, all_some, path, path_from, keys_among as among};

use facet_names::{NoMemory, Path, PathFault};
use serde_json::{Map, Value};
use std::alloc::Global;

// A whole number in these limits.
fn whole_in(value: &Value, low: u64, high: u64) -> Option<u64>
    ensures { result ≡ whole_within low high (view value.now) }
{
    let n = value.as_u64()?;
    if low <= n && n <= high { Some(n) } else { None }
}

/// Returns a whole number of 32 bits, or `None` if the value is not one.
pub fn index_in(value: &Value) -> Option<u32>
    ensures { result ≡ whole_within 0 4294967295 (view value.now) }
{
    match whole_in(value, 0, 4_294_967_295) {
        Some(n) => Some(n as u32),
        None => None,
    }
}

/// Returns the whole number under a key, or the default if there is no such key. `None` if the value is not a whole
/// number in these limits.
pub fn whole_or(value: &Value, name: &str, default: u64, low: u64, high: u64) -> Option<u64>
    requires low { low ≤ default }
    requires high { default ≤ high }
    ensures value { result ≡ key_or name.now default (whole_within low high) (view value.now) }
    ensures some { IfSome result (λ n. low ≤ n) }
    ensures few { IfSome result (λ n. n ≤ high) }
{
    value
        .get(name)
        .map_or(Some(default), |found| whole_in(found, low, high))
}

/// Returns the whole number with a sign under a key. `None` if there is no such key, or the value is not a number of 64
/// bits without a fraction and without an exponent.
pub fn signed_at(value: &Value, name: &str) -> Option<i64>
    ensures { result ≡ key name.now signed (view value.now) }
{
    value.get(name).and_then(Value::as_i64)
}

/// Returns a text of `low` to `high` bytes, or `None` if the value is not one. It copies nothing.
pub fn text_in<'a>(value: &'a Value, low: usize, high: usize) -> Option<&'a str>
    ensures { option_map (λ s. s.now) result ≡ text_within low high (view value.now) }
{
    let text = value.as_str()?;
    if low <= text.len() && text.len() <= high {
        Some(text)
    } else {
        None
    }
}

/// Returns the truth value under a key, and `false` if there is no such key. `None` if the value is not a truth value.
pub fn flag_at(value: &Value, name: &str) -> Option<bool>
    ensures { result ≡ key_or name.now false as_bool (view value.now) }
{
    value.get(name).map_or(Some(false), Value::as_bool)
}

fn is_listed(text: &str, names: &[&str]) -> bool
    ensures { result ≡ list_any (λ k. bytes_eq text.now k.now) names.now }
{
    names.iter().any(|name| text == *name)
}

fn all_listed(members: &Map<String, Value>, names: &[&str]) -> bool
    ensures { result ≡ list_all (λ k. list_any (λ a. bytes_eq (string_bytes k) a.now) names.now) (keys members.now) }
{
    members.keys().all(|key| is_listed(key.as_str(), names))
}

/// Returns whether the value is an object with no keys except these.
pub fn keys_among(value: &Value, names: &[&str]) -> bool
    ensures { result ≡ among (map (λ k. k.now) names.now) (view value.now) }
{
    let Some(members) = value.as_object() else {
        return false;
    };
    all_listed(members, names)
}

/// What is read from a JSON value of a certain form.
pub trait Shaped: Drop {
    /// The plain data of what is read.
    ghost Plain: { Type 0 };

    ghost plain: { Self → Plain };

    /// What a JSON value means in this form.
    ghost shape: { Data → Option Plain };

    /// Reads a value, or returns `None` if the value has another form.
    ///
    /// Errors: out of memory.
    fn read(alloc: Global, value: &Value) -> Result<Option<Self>, NoMemory>
        ensures { IfOk result (λ o. option_map plain o ≡ shape (view value.now)) };
}

fn each_in<T: Shaped>(alloc: Global, list: &[Value]) -> Result<Option<Vec<T>>, NoMemory>
    ensures each { IfOk result (λ o. option_map (λ v. map T.plain v.items) o
        ≡ all_some (map (λ v. T.shape (view v)) list.now)) }
    ensures count { IfOk result (λ o. IfSome o (λ v. length v.items ≡ length list.now)) }
{
    let mut out = Vec::with_capacity(alloc, list.len())?;
    for value in list {
        let Some(item) = T::read(alloc, value)? else {
            return Ok(None);
        };
        out.push(item)?;
    }
    Ok(Some(out))
}

/// Reads the values of an array, or returns `None` if it is not an array of such values.
///
/// Errors: out of memory.
pub fn list_of_in<T: Shaped>(alloc: Global, value: &Value) -> Result<Option<Vec<T>>, NoMemory>
    ensures { IfOk result (λ o. option_map (λ v. map T.plain v.items) o ≡ list_of T.shape (view value.now)) }
{
    let Some(list) = value.as_array() else {
        return Ok(None);
    };
    each_in(alloc, list)
}

/// Reads the `low` to `high` values of an array, or returns `None` if it is not such an array.
///
/// Errors: out of memory.
#[tactic(auto, using(crate::proofs::Traversals::items_length))]
pub fn list_in<T: Shaped>(
    alloc: Global,
    value: &Value,
    low: usize,
    high: usize,
) -> Result<Option<Vec<T>>, NoMemory>
    ensures each { IfOk result (λ o. option_map (λ v. map T.plain v.items) o
        ≡ list_within low high T.shape (view value.now)) }
    ensures count { IfOk result (λ o. IfSome o (λ v. length v.items ≤ high)) }
{
    let Some(list) = value.as_array() else {
        return Ok(None);
    };
    if low <= list.len() && list.len() <= high {
        each_in(alloc, list)
    } else {
        Ok(None)
    }
}

/// Reads the value under a key, or returns `None` if there is no such key or the value has another form.
///
/// Errors: out of memory.
pub fn read_at<T: Shaped>(alloc: Global, value: &Value, name: &str) -> Result<Option<T>, NoMemory>
    ensures { IfOk result (λ o. option_map T.plain o ≡ key name.now T.shape (view value.now)) }
{
    match value.get(name) {
        Some(found) => T::read(alloc, found),
        None => Ok(None),
    }
}

/// Reads the values of an array of at most `high` under a key. No values if there is no such key. `None` if it is not
/// such an array.
///
/// Errors: out of memory.
pub fn list_or<T: Shaped>(
    alloc: Global,
    value: &Value,
    name: &str,
    high: usize,
) -> Result<Option<Vec<T>>, NoMemory>
    ensures each { IfOk result (λ o. option_map (λ v. map T.plain v.items) o
        ≡ key_or name.now [] (list_within 0 high T.shape) (view value.now)) }
    ensures count { IfOk result (λ o. IfSome o (λ v. length v.items ≤ high)) }
{
    match value.get(name) {
        Some(list) => list_in(alloc, list, 0, high),
        None => Ok(Some(Vec::new(alloc))),
    }
}

impl Shaped for String {
    ghost use Rattle.std.specs.Prelude.{ℕ, List, string_bytes};
    ghost use Rattle.serde_json.specs.Find.{as_str};

    ghost Plain = { List ℕ };

    ghost plain = { string_bytes };

    ghost shape = { as_str };

    fn read(alloc: Global, value: &Value) -> Result<Option<String>, NoMemory> {
        match value.as_str() {
            Some(text) => Ok(Some(String::from_str(alloc, text)?)),
            None => Ok(None),
        }
    }
}

#[tactic(auto, unfolding(crate::specs::Shapes::path))]
fn path_in(alloc: Global, value: &Value) -> Result<Option<Path>, NoMemory>
    ensures { IfOk result (λ o. o ≡ path (view value.now)) }
{
    let Some(parts) = list_in::<String>(alloc, value, 1, 32)? else {
        return Ok(None);
    };
    path_of(alloc, &parts)
}

fn path_of(alloc: Global, parts: &[String]) -> Result<Option<Path>, NoMemory>
    ensures { IfOk result (λ o. o ≡ path_from (texts parts.now)) }
{
    match Path::new(alloc, parts) {
        Ok(path) => Ok(Some(path)),
        Err(PathFault::NoMemory) => Err(NoMemory),
        Err(_) => Ok(None),
    }
}

impl Shaped for Path {
    ghost use Rattle.std.specs.Prelude.{ℕ, List};
    ghost use Rattle.facet_words.specs.Shapes.{path};

    ghost Plain = { List (List ℕ) };

    ghost plain = { λ p. p };

    ghost shape = { path };

    fn read(alloc: Global, value: &Value) -> Result<Option<Path>, NoMemory> {
        path_in(alloc, value)
    }
}
