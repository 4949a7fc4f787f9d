//! The arrays of a view, read as ordinals.
ghost use Rattle.std.specs.Prelude.{◌≡◌, ◌<◌, length};
ghost use Rattle.facet_names.specs.Arrays.{child_at, sibling_at};
ghost use Rattle.taxo_list.specs.Links.{ordinal};

use taxo_list::TaxoView;

/// Returns an entry of an array as an ordinal, or `None` if it is negative.
pub fn entry(link: i32) -> Option<u32>
    ensures { result ≡ ordinal link }
{
    if link < 0 { None } else { Some(link as u32) }
}

/// Returns the child that was added last, or `None`, in constant time.
pub fn child_of(view: &TaxoView, ord: u32) -> Option<u32>
    requires { ord < length view.now }
    ensures { result ≡ child_at view.now ord }
{
    entry(view.arrays().child(ord))
}

/// Returns the child of the same parent that was added last before this one, or `None`, in constant time.
pub fn sibling_of(view: &TaxoView, ord: u32) -> Option<u32>
    requires { ord < length view.now }
    ensures { result ≡ sibling_at view.now ord }
{
    entry(view.arrays().sibling(ord))
}
