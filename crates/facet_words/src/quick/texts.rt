ghost use Rattle.std.specs.Prelude.{◌≡◌, ◌<◌, ◌≤◌, ◌∷◌, ◌++◌, Some, None, map, IfOk, IfSome, MatchResult, All, length};
ghost use Rattle.json.specs.Token.{Token as SpecToken};
ghost use Rattle.json.specs.Json.{array};
ghost use Rattle.json.specs.Tree.{json_tokens};
ghost use Rattle.serde_json.specs.Data.{array as array_data};
ghost use Rattle.facet_names.specs.Faults.{IsPath};
ghost use Rattle.facet_words.specs.Shapes.{list_within, path};
ghost use Rattle.facet_words.specs.Quick.{written_texts, written_lists, text_items, list_items};

use facet_names::{NoMemory, Path, PathFault};
use json::{Reader, Token};
use std::alloc::Global;

/// Returns the next text. `None` means that the line has to be read from its JSON value.
pub(crate) fn text_next<'a>(reader: &mut Reader<'a>) -> Option<&'a str>
    ensures { IfSome result (λ t. reader.old ≡ SpecToken.string t.now ∷ reader.new) }
{
    match reader.next() {
        Some(Token::String(text)) => Some(text),
        _ => None,
    }
}

// The path that was made; None if its components are no path.
fn made(tried: Result<Path, PathFault>) -> Result<Option<Path>, NoMemory>
    ensures { IfOk result (λ o. MatchResult tried (λ p. o ≡ Some p) (λ _. o ≡ None)) }
{
    match tried {
        Ok(path) => Ok(Some(path)),
        Err(PathFault::NoMemory) => Err(NoMemory),
        Err(_) => Ok(None),
    }
}

// The path of the text that comes next, or None, which says nothing.
fn dim_next(alloc: Global, reader: &mut Reader<'_>) -> Result<Option<Path>, NoMemory>
    ensures read { IfOk result (λ o. IfSome o (λ p. reader.old ≡ map SpecToken.string p ++ reader.new)) }
    ensures fits { IfOk result (λ o. IfSome o (λ p. IsPath p)) }
{
    match text_next(reader) {
        Some(dim) => made(Path::of_dim(alloc, dim)),
        None => Ok(None),
    }
}

// The path with the text that comes next, or None, which says nothing.
fn child_next(
    alloc: Global,
    reader: &mut Reader<'_>,
    parent: &Path,
) -> Result<Option<Path>, NoMemory>
    ensures read { IfOk result (λ o.
        IfSome o (λ p. map SpecToken.string parent.now ++ reader.old ≡ map SpecToken.string p ++ reader.new)) }
    ensures fits { IfOk result (λ o. IfSome o (λ p. IsPath p)) }
    ensures shorter { IfOk result (λ o. IfSome o (λ _. length reader.new < length reader.old)) }
{
    match text_next(reader) {
        Some(part) => made(parent.child(alloc, part)),
        None => Ok(None),
    }
}

// The path with all texts up to the end of their array, or None, which says nothing.
fn rest_next(alloc: Global, reader: &mut Reader<'_>, dim: Path) -> Result<Option<Path>, NoMemory>
    requires { IsPath dim }
    ensures read { IfOk result (λ o.
        IfSome o (λ p. map SpecToken.string dim ++ reader.old
        ≡ map SpecToken.string p ++ (SpecToken.end_array ∷ reader.new))) }
    ensures fits { IfOk result (λ o. IfSome o (λ p. IsPath p)) }
{
    let mut path = dim;
    while !reader.take_end_array() {
        let Some(child) = child_next(alloc, reader, &path)? else {
            return Ok(None);
        };
        path = child;
    }
    Ok(Some(path))
}

// The path that comes next, or None, which says nothing.
fn path_next(alloc: Global, reader: &mut Reader<'_>) -> Result<Option<Path>, NoMemory>
    ensures read { IfOk result (λ o. IfSome o (λ p. reader.old ≡ json_tokens (array (written_texts p)) ++ reader.new)) }
    ensures path { IfOk result (λ o. IfSome o (λ p. path (array_data (text_items p)) ≡ Some p)) }
{
    let Some(Token::BeginArray) = reader.next() else {
        return Ok(None);
    };
    match dim_next(alloc, reader)? {
        Some(dim) => rest_next(alloc, reader, dim),
        None => Ok(None),
    }
}

// The paths of the array that comes next, or None, which says nothing.
fn paths_next(alloc: Global, reader: &mut Reader<'_>) -> Result<Option<Vec<Path>>, NoMemory>
    ensures read { IfOk result (λ o.
        IfSome o (λ v. reader.old ≡ json_tokens (array (written_lists v.items)) ++ reader.new)) }
    ensures paths { IfOk result (λ o. IfSome o (λ v. All (λ p. path (array_data (text_items p)) ≡ Some p) v.items)) }
{
    let Some(Token::BeginArray) = reader.next() else {
        return Ok(None);
    };
    let mut paths = Vec::with_capacity(alloc, 4)?;
    while !reader.take_end_array() {
        let Some(path) = path_next(alloc, reader)? else {
            return Ok(None);
        };
        paths.push(path)?;
    }
    // They are kept as long as the order.
    paths.shrink_to_fit();
    Ok(Some(paths))
}

/// Reads at most 256 paths in the next array. `None` means that the line has to be read from its JSON value.
pub(crate) fn facets_next(
    alloc: Global,
    reader: &mut Reader<'_>,
) -> Result<Option<Vec<Path>>, NoMemory>
    ensures read { IfOk result (λ o.
        IfSome o (λ v. reader.old ≡ json_tokens (array (written_lists v.items)) ++ reader.new)) }
    ensures paths { IfOk result (λ o.
        IfSome o (λ v. list_within 0 256 path (array_data (list_items v.items)) ≡ Some v.items)) }
    ensures few { IfOk result (λ o. IfSome o (λ v. length v.items ≤ 256)) }
{
    match paths_next(alloc, reader)? {
        Some(paths) if paths.len() <= 256 => Ok(Some(paths)),
        Some(_) | None => Ok(None),
    }
}
