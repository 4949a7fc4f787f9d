ghost use Rattle.std.specs.Prelude.{◌≡◌, true, false, Contains};
ghost use Rattle.std.specs.List.Sorted.{IsPermutation};

use facet_disk::FileName;
use std::marker::Model;

/// The names of the files of a disk, sorted, so that a look-up is a binary search.
///
/// Contracts see them as their list.
#[derive(Drop)]
pub(crate) struct Names {
    names: Vec<FileName>,
}

impl Model for Names {
    ghost use Rattle.std.specs.Prelude.{List};
    ghost use Rattle.std.specs.List.Sorted.{IsSorted};
    ghost use Rattle.facet_disk.specs.contracts.name.FileNameOrd.TheImpl as name_ord;
    ghost use Rattle.facet_disk.specs.declared.name.FileName.{FileName};

    ghost Value = { List FileName };

    ghost view = { λ n. n.names.items };

    ghost invariant = { λ n. IsSorted (name_ord.ghosts).cmp n.names.items };
}

impl Names {
    /// Sorts the names, and allocates nothing.
    pub(crate) fn new(mut names: Vec<FileName>) -> Names
        ensures { IsPermutation names.items result }
    {
        names.sort_unstable();
        Names { names }
    }

    /// Returns whether the name is among them. It takes logarithmic time.
    pub(crate) fn has(&self, name: FileName) -> bool
        ensures there { result ≡ true → Contains self.now name }
        ensures none { result ≡ false → Contains self.now name → ⊥ }
    {
        self.names.binary_search(&name).is_ok()
    }

    pub(crate) fn as_slice(&self) -> &[FileName]
        ensures { result.now ≡ self.now }
    {
        &self.names
    }

    pub(crate) fn into_vec(self) -> Vec<FileName>
        ensures { result.items ≡ self }
    {
        self.names
    }
}
