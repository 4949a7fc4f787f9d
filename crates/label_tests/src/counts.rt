ghost use Rattle.std.specs.Prelude.{◌≡◌, ◌<◌, true, length, IfOk};
ghost use Rattle.facet_model.specs.Flags.{flags};
ghost use Rattle.facet_counts.specs.Lists.{IsCounted, dim_at};
ghost use Rattle.seg_postings.specs.Bytes.{AreNumbers};
ghost use Rattle.seg_postings.specs.Rising.{IsRising};

use crate::columns::tags_are_counted;
use crate::making::{BOOKS, viewed};
use facet_codec::put_u32;
use facet_config::FacetsConfig;
use facet_counts::{Counter, Counts};
use facet_model::DimFlags;
use seg_postings::Ords;
use std::alloc::Global;
use std::test::Fail;
use taxo_list::{Labelled, TaxoView};
use test_keys::fixed_keys;

// Returns the flags of a hierarchical dimension.
pub(crate) fn flags_of(multi_valued: bool, require_dim_count: bool) -> DimFlags {
    DimFlags {
        hierarchical: true,
        multi_valued,
        require_dim_count,
    }
}

pub(crate) fn config_of(alloc: Global, dim: &str, flags: DimFlags) -> Result<FacetsConfig, Fail> {
    let mut config = FacetsConfig::new(alloc, fixed_keys()?);
    config.declare(dim, flags)?;
    Ok(config)
}

fn is_multi_valued(view: &TaxoView, config: &FacetsConfig, ord: u32) -> bool
    requires some { 0 < ord }
    requires within { ord < length view.now }
    ensures { result ≡ (flags config.now (dim_at view.now ord)).multi_valued }
{
    config.flags(view.path_of(ord).dim()).multi_valued
}

// Returns whether the ordinals rise, in multi-valued dimensions; a single one may be in any.
pub(crate) fn may_be_added(view: &TaxoView, config: &FacetsConfig, ords: &[u32]) -> bool
    ensures counted { result ≡ true → IsCounted config.now view.now ords.now }
    ensures rising { result ≡ true → IsRising ords.now }
{
    let mut last = 0;
    for ord in ords {
        if *ord <= last || *ord >= view.size() {
            return false;
        }
        if ords.len() > 1 && !is_multi_valued(view, config, *ord) {
            return false;
        }
        last = *ord;
    }
    true
}

// Returns the bytes of these ordinals.
pub(crate) fn spelled(alloc: Global, ords: &[u32]) -> Result<Vec<u8>, facet_codec::NoMemory>
    ensures { IfOk result (λ bytes. AreNumbers bytes.items ords.now) }
{
    let mut out = Vec::new(alloc);
    for ord in ords {
        put_u32(&mut out, *ord)?;
    }
    Ok(out)
}

// Returns the counts of these lists.
fn counts_of<'a>(
    alloc: Global,
    view: &'a TaxoView,
    config: &'a FacetsConfig,
    lists: &[&[u32]],
) -> Result<Counts<'a>, Fail>
    requires { length lists.now < 1000 }
    ensures labels { IfOk result (λ c. c.labels ≡ view.now) }
    ensures config { IfOk result (λ c. c.config ≡ config.now) }
{
    let mut counter = Counter::new(alloc, view, config)?;
    for list in lists {
        if !may_be_added(view, config, *list) {
            return Err("not to be added".into());
        }
        let bytes = spelled(alloc, *list)?;
        counter.add_doc(Ords::new(&bytes));
    }
    Ok(counter.roll_up())
}

// Returns whether this many documents have these ordinals.
pub(crate) fn are_counted(view: &TaxoView, counts: &Counts, rows: &[(u32, u32)]) -> bool
    requires { counts.now.labels ≡ view.now }
{
    for (ord, count) in rows {
        if *ord == 0 || *ord >= view.size() || counts.at(*ord) != *count {
            return false;
        }
    }
    true
}

const DAYS: &[&[u32]] = &[&[6], &[6], &[1]];

const COUNTED: &[(u32, u32)] = &[(1, 1), (2, 0), (3, 2), (4, 2), (5, 2), (6, 2)];

fn days_are_counted(alloc: Global, view: &TaxoView) -> Result<bool, Fail> {
    let config = config_of(alloc, "Publish Date", flags_of(false, false))?;
    let counts = counts_of(alloc, view, &config, DAYS)?;
    Ok(are_counted(view, &counts, COUNTED))
}

fn books_are_counted(alloc: Global) -> Result<bool, Fail> {
    let view = viewed(alloc, BOOKS)?;
    days_are_counted(alloc, &view)
}

#[test]
fn counts_by_ordinals(rt: HostRuntime) -> Result<(), Fail> {
    let alloc = rt.alloc();
    assert!(rt; books_are_counted(alloc)? && tags_are_counted(alloc)?);
    Ok(())
}
