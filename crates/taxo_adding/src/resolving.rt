ghost use Rattle.std.specs.Prelude.{◌≡◌, ◌≢◌, ◌≤◌, ◌+◌, ◌++◌, ℕ, [], ◌∷◌, true, false, length, take, slice_index_or};
ghost use Rattle.std.specs.Prelude.{flat_map, Some, IfOk, IfErr, OnOk, OnErr};
ghost use mathlib.Core.List.{IsPrefix};
ghost use Rattle.chronicle.specs.History.{numbered};
ghost use Rattle.chronicle.specs.Shown.{mine, MayEnter, SameToken};
ghost use Rattle.facet_names.specs.Labels.{above, place, prefixes, stands};
ghost use Rattle.taxo_cache.specs.Seen.{labels_of, SeesLabels};
ghost use Rattle.taxo_adding.specs.Adding.{HaveOrdinals, Adds, HasNoRoom, IsFull, lacking};
ghost use Rattle.taxo_adding.specs.Several.{AddsInTurn, EachHaveFirst, EachHaveOrdinals, IsFullForOne};
ghost use Rattle.taxo_list.specs.declared.fault.TaxoFault.TheVariants.{NoMemory as Memory};

use crate::label_list::LabelList;
use chronicle::{Chronicle, Token};
use facet_model::Resolved;
use facet_names::Path;
use std::alloc::Global;
use taxo_list::{Labelled, TaxoFault, Taxonomy};

// Returns the ordinal of the parent of a path's prefix, given the ordinals of the shorter ones: the last of these, or
// the root's.
fn parent_of(ords: &[u32], n: usize) -> u32
    requires { n ≤ length ords.now }
    ensures first { n ≡ 0 → result ≡ 0 }
    ensures later { (m : ℕ) → n ≡ m + 1 → result ≡ slice_index_or ords.now m 0 }
{
    if n == 0 { 0 } else { ords[n - 1] }
}

// Returns the ordinal of a path, under the parent at an ordinal. It adds and enters the path if it is missing. The
// caller holds the lock of the labels.
fn add_label(
    labels: &Chronicle<LabelList>,
    token: &mut Token<Path>,
    list: &mut Taxonomy,
    path: Path,
    parent: u32,
    limit: u32,
) -> Result<u32, TaxoFault>
    requires limit { limit ≤ 1000000 }
    requires own { token.old.identity ≡ labels.now }
    requires turn { MayEnter token.old }
    requires list { list.old ≡ labels_of token.old.seen }
    requires labels { SeesLabels token.old }
    requires parent { place (labels_of token.old.seen) (above path) ≡ Some parent }
    ensures turn { SameToken token.old token.new × (token.new.holds_turn ≡ true) }
    ensures list { list.new ≡ labels_of token.new.seen }
    ensures labels { SeesLabels token.new }
    ensures ordinal { IfOk result (λ ord. place (labels_of token.new.seen) path ≡ Some ord) }
    ensures entered { OnOk result (token.new.seen ≡ token.old.seen
        ++ numbered token.old.number (lacking (labels_of token.old.seen) (path ∷ []))) }
    ensures mine { OnOk result (mine token.new ≡ mine token.old
        ++ numbered token.old.number (lacking (labels_of token.old.seen) (path ∷ []))) }
    ensures room { OnOk result (stands (labels_of token.old.seen) path ≡ false
        → length (labels_of token.new.seen) ≤ limit) }
    ensures refused { OnErr result (token.new ≡ token.old) }
    ensures full { IfErr result (λ e. e ≢ Memory → HasNoRoom e limit (labels_of token.old.seen) path) }
{
    let size = list.size();
    match list.add_under(path, parent, limit) {
        Ok(ord) => {
            if ord >= size {
                labels.enter_lent(token, list.path_of(ord));
            }
            Ok(ord)
        }
        Err(fault) => Err(fault),
    }
}

/// Appends to `ords` the ordinals of the path's prefixes after those that it has, the shortest first. It adds and
/// enters each missing prefix. The caller holds the lock of the labels.
///
/// Errors: `LabelsFull` if the list has `limit` labels and a prefix is missing; out of memory. Prefixes that were added
/// before stay.
pub fn add_each(
    alloc: Global,
    labels: &Chronicle<LabelList>,
    token: &mut Token<Path>,
    list: &mut Taxonomy,
    path: &Path,
    ords: &mut Vec<u32>,
    limit: u32,
) -> Result<(), TaxoFault>
    requires limit { limit ≤ 1000000 }
    requires own { token.old.identity ≡ labels.now }
    requires turn { MayEnter token.old }
    requires list { list.old ≡ labels_of token.old.seen }
    requires labels { SeesLabels token.old }
    requires known { HaveOrdinals (labels_of token.old.seen) (take (length ords.old.items)
        (prefixes path.now)) ords.old.items }
    ensures turn { SameToken token.old token.new × (token.new.holds_turn ≡ true) }
    ensures list { list.new ≡ labels_of token.new.seen }
    ensures labels { SeesLabels token.new }
    ensures adds { Adds path.now limit token.old token.new }
    ensures ordinals { OnOk result (HaveOrdinals (labels_of token.new.seen) (prefixes path.now) ords.new.items) }
    ensures full { IfErr result (λ e. e ≢ Memory → IsFull e limit (labels_of token.new.seen) path.now) }
{
    let from = ords.len();
    for n in from..path.len() {
        let prefix = path.front(alloc, n + 1)?;
        let parent = parent_of(ords.as_slice(), n);
        match add_label(labels, token, list, prefix, parent, limit) {
            Ok(ord) => ords.push(ord)?,
            Err(fault) => return Err(fault),
        }
    }
    Ok(())
}

// Returns the ordinals of all prefixes of a path. `found` has the first of them.
fn add_behind(
    alloc: Global,
    labels: &Chronicle<LabelList>,
    token: &mut Token<Path>,
    list: &mut Taxonomy,
    path: &Path,
    found: &Resolved,
    limit: u32,
) -> Result<Resolved, TaxoFault>
    requires limit { limit ≤ 1000000 }
    requires own { token.old.identity ≡ labels.now }
    requires turn { MayEnter token.old }
    requires list { list.old ≡ labels_of token.old.seen }
    requires labels { SeesLabels token.old }
    requires known { HaveOrdinals (labels_of token.old.seen) (take (length found.now) (prefixes path.now)) found.now }
    ensures turn { SameToken token.old token.new × (token.new.holds_turn ≡ true) }
    ensures list { list.new ≡ labels_of token.new.seen }
    ensures labels { SeesLabels token.new }
    ensures adds { Adds path.now limit token.old token.new }
    ensures ordinals { IfOk result (HaveOrdinals (labels_of token.new.seen) (prefixes path.now)) }
    ensures full { IfErr result (λ e. e ≢ Memory → IsFull e limit (labels_of token.new.seen) path.now) }
{
    let mut ords = Vec::with_capacity(alloc, path.len())?;
    ords.extend_from_slice(found.prefixes())?;
    match add_each(alloc, labels, token, list, path, &mut ords, limit) {
        Ok(()) => Ok(Resolved::new(ords)),
        Err(fault) => Err(fault),
    }
}

/// Returns the ordinals of all prefixes of each path, path by path. `found` has the first of them for each path. It
/// adds and enters each missing prefix. `resolved` is empty, with capacity for the result. The caller holds the lock of
/// the labels.
///
/// Errors: `LabelsFull` if the list has `limit` labels and a prefix is missing; out of memory. Prefixes that were added
/// before stay.
pub fn add_behind_each(
    alloc: Global,
    labels: &Chronicle<LabelList>,
    token: &mut Token<Path>,
    list: &mut Taxonomy,
    paths: &[Path],
    found: &[Resolved],
    mut resolved: Vec<Resolved>,
    limit: u32,
) -> Result<Vec<Resolved>, TaxoFault>
    requires limit { limit ≤ 1000000 }
    requires own { token.old.identity ≡ labels.now }
    requires turn { MayEnter token.old }
    requires list { list.old ≡ labels_of token.old.seen }
    requires labels { SeesLabels token.old }
    requires known { EachHaveFirst (labels_of token.old.seen) paths.now found.now }
    requires none { resolved.items ≡ [] }
    ensures turn { SameToken token.old token.new × (token.new.holds_turn ≡ true) }
    ensures list { list.new ≡ labels_of token.new.seen }
    ensures more { IsPrefix token.old.seen token.new.seen }
    ensures labels { SeesLabels token.new }
    ensures adds { AddsInTurn (flat_map prefixes paths.now) limit token.old token.new }
    ensures ordinals { IfOk result (λ v. EachHaveOrdinals (labels_of token.new.seen) paths.now v.items) }
    ensures full { IfErr result (λ e. e ≢ Memory → IsFullForOne e limit (labels_of token.new.seen) paths.now) }
{
    for at in 0..paths.len() {
        match add_behind(alloc, labels, token, list, &paths[at], &found[at], limit) {
            Ok(ordinals) => resolved.push(ordinals)?,
            Err(fault) => return Err(fault),
        }
    }
    Ok(resolved)
}
