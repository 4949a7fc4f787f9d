use crate::counts::config_of;
use crate::making::path;
use facet_config::FacetsConfig;
use facet_model::{Counted, DimFlags, Document, Resolved};
use std::alloc::Global;
use std::test::Fail;

// Returns what is counted for a document with the labels Tag/a/b and Tag/a/c, whose prefixes have these ordinals.
fn expanded(alloc: Global, config: &FacetsConfig, b: &[u32], c: &[u32]) -> Result<Counted, Fail> {
    let first = path(alloc, "Tag/a/b")?;
    let second = path(alloc, "Tag/a/c")?;
    if first.len() != b.len() || second.len() != c.len() {
        return Err("as many ordinals as components".into());
    }
    let facets = vec![in alloc; first, second]?;
    let doc = Document::new(alloc, "d", "", facets)?;
    let mut resolved = Vec::new(alloc);
    resolved.push(Resolved::new(b.to_vec(alloc)?))?;
    resolved.push(Resolved::new(c.to_vec(alloc)?))?;
    Ok(config.expand(alloc, &doc, &resolved)?)
}

// Flags of Tag, the ordinals of the prefixes of both labels, and what is counted.
struct Expansion {
    multi_valued: bool,
    require_dim_count: bool,
    b: &'static [u32],
    c: &'static [u32],
    counted: &'static [u32],
}

const EXPANSIONS: &[Expansion] = &[
    Expansion {
        multi_valued: true,
        require_dim_count: false,
        b: &[1, 2, 3],
        c: &[1, 2, 4],
        counted: &[2, 3, 4],
    },
    Expansion {
        multi_valued: true,
        require_dim_count: true,
        b: &[1, 2, 3],
        c: &[1, 2, 4],
        counted: &[1, 2, 3, 4],
    },
    Expansion {
        multi_valued: false,
        require_dim_count: true,
        b: &[7, 5, 9],
        c: &[7, 5, 8],
        counted: &[8, 9],
    },
];

fn is_counted(alloc: Global, row: &Expansion) -> Result<bool, Fail> {
    let flags = DimFlags {
        hierarchical: true,
        multi_valued: row.multi_valued,
        require_dim_count: row.require_dim_count,
    };
    let config = config_of(alloc, "Tag", flags)?;
    let counted = expanded(alloc, &config, row.b, row.c)?;
    Ok(counted.ords() == row.counted)
}

fn are_expanded(alloc: Global) -> Result<bool, Fail> {
    for row in EXPANSIONS {
        if !is_counted(alloc, row)? {
            return Ok(false);
        }
    }
    Ok(true)
}

#[test]
fn expands_by_the_flags(rt: HostRuntime) -> Result<(), Fail> {
    assert!(rt; are_expanded(rt.alloc())?);
    Ok(())
}
