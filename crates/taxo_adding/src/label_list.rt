ghost use Rattle.std.specs.Prelude.{◌≡◌};
ghost use Rattle.facet_names.specs.Labels.{IsLabelList};

use chronicle::Standing;
use facet_names::Path;
use std::marker::Model;
use taxo_list::Taxonomy;

/// The value of the labels chronicle. It represents its labels after the root, in order.
#[derive(Drop)]
pub struct LabelList {
    list: Taxonomy,
}

impl Model for LabelList {
    ghost use Rattle.std.specs.Prelude.{ℕ, List};
    ghost use Rattle.facet_names.specs.Labels.{IsLabelList};

    ghost Value = { List (List (List ℕ)) };

    ghost view = { λ l. l.list };

    ghost invariant = { λ l. IsLabelList l.list };
}

impl Standing for LabelList {
    ghost use Rattle.std.specs.Prelude.{◌≡◌, [], ◌∷◌, drop};
    ghost use Rattle.chronicle.specs.Frame.{empty_frame};

    type Entry = Path;

    ghost stands = { λ labels entries. labels ≡ [] ∷ entries };

    ghost opening = { λ labels. drop 1 labels };

    ghost frame = { λ _. empty_frame };
}

impl LabelList {
    /// Makes it of a list. A chronicle that is opened with it begins with the labels of the list. It allocates nothing.
    pub fn new(list: Taxonomy) -> LabelList
        requires list { IsLabelList list }
        ensures list { result ≡ list }
    {
        LabelList { list }
    }

    /// Returns the list.
    pub fn into_list(self) -> Taxonomy
        ensures same { result ≡ self }
        ensures list { IsLabelList self }
    {
        self.list
    }
}
