ghost use Rattle.std.specs.Prelude.{◌≡◌};
ghost use Rattle.std.specs.List.Sorted.{IsStrictlyIncreasing};

use std::marker::Model;

/// The ordinals that are counted for one document, strictly rising.
#[derive(Debug, Drop)]
pub struct Counted {
    ords: Vec<u32>,
}

impl Model for Counted {
    ghost use Rattle.std.specs.Prelude.{List, ℕ};
    ghost use Rattle.std.specs.List.Sorted.{IsStrictlyIncreasing};

    ghost Value = { List ℕ };

    ghost view = { λ c. c.ords.items };

    ghost invariant = { λ c. IsStrictlyIncreasing c.ords.items };
}

impl Counted {
    /// Makes it of ordinals that rise strictly. It allocates nothing.
    pub fn new(ords: Vec<u32>) -> Counted
        requires { IsStrictlyIncreasing ords.items }
        ensures { result ≡ ords.items }
    {
        Counted { ords }
    }

    /// Returns the ordinals.
    pub fn ords(&self) -> &[u32]
        ensures ords { result.now ≡ self.now }
        ensures rising { IsStrictlyIncreasing self.now }
    {
        &self.ords
    }
}

/// The ordinals of a path's prefixes: the dimension's first, the path's own last.
#[derive(Debug, Drop)]
pub struct Resolved {
    prefixes: Vec<u32>,
}

impl Model for Resolved {
    ghost use Rattle.std.specs.Prelude.{List, ℕ};

    ghost Value = { List ℕ };

    ghost view = { λ r. r.prefixes.items };
}

impl Resolved {
    /// Makes it of these ordinals. It allocates nothing.
    pub fn new(prefixes: Vec<u32>) -> Resolved
        ensures { result ≡ prefixes.items }
    {
        Resolved { prefixes }
    }

    /// Returns the ordinals.
    pub fn prefixes(&self) -> &[u32]
        ensures { result.now ≡ self.now }
    {
        &self.prefixes
    }
}
