ghost use Rattle.std.specs.Prelude.{◌≡◌, ◌<◌, ◌≤◌, ℕ, List, Some, length, slice_get};
ghost use Rattle.facet_names.specs.Labels.{IsLabelList};

use facet_names::Path;

/// Something that has labels at ordinals: the list, and each view of it. No call allocates.
pub trait Labelled {
    /// The labels, with the root.
    ghost labels: { Self → List (List (List ℕ)) };

    /// Returns the number of labels, with the root: 1 to 1,000,000.
    fn size(&self) -> u32
        ensures size { result ≡ length (labels self.now) }
        ensures list { IsLabelList (labels self.now) }
        ensures few { length (labels self.now) ≤ 1000000 };

    /// Returns the path at an ordinal. The root has none.
    fn path_of(&self, ord: u32) -> &Path
        requires some { 0 < ord }
        requires within { ord < length (labels self.now) }
        ensures { slice_get (labels self.now) ord ≡ Some result.now };
}
