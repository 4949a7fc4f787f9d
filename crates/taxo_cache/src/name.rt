use std::marker::Brand;

/// Identifies a chronicle of labels by a type. A value under a plain lock shows no identity, so this type ties it to
/// its chronicle. The opener of the chronicle calls a function that is generic over the name, and chooses the
/// chronicle's identity for it. It has no cost at run time.
pub trait Name {
    ghost use Rattle.atomic_table.specs.Seated.{TableId};

    /// The identity of the labels chronicle.
    ghost labels: { TableId };
}

impl Name for Brand {
    ghost use Rattle.std.specs.Prelude.{[]};

    ghost labels = { record {
      words = 0;
      slots = 0;
      views_name = 0;
      atom = 0;
      block = 0;
      offset = 0;
      slot_names = [];
    } };
}
