ghost use Rattle.std.specs.Prelude.{◌≡◌, ◌++◌, ◌∷◌, [], None, Some, OnOk, OnErr, MatchOption, length, string_bytes};
ghost use Rattle.pair_manager.specs.Published.{Published};
ghost use Rattle.facet_engine.specs.HeldPairs.{pair_under, without};

use facet_names::NoMemory;
use pair_manager::Lease;
use std::alloc::Global;
use std::marker::Model;

/// A pair that a session holds, with its name.
#[derive(Drop)]
pub struct Held {
    /// The name, which the session chose.
    pub name: String,
    /// A shared reference to the pair, which keeps its segments and labels in memory.
    pub lease: Lease,
}

/// The pairs that a session holds, in the order of holding. No two have the same name. A lookup compares one name after
/// the other.
#[derive(Drop)]
pub struct HeldPairs {
    items: Vec<Held>,
}

impl Model for HeldPairs {
    ghost use Rattle.std.specs.Prelude.{List};
    ghost use Rattle.facet_engine.specs.HeldPairs.{HeldPair, AreNamedApart};
    ghost use Rattle.facet_engine.specs.Leases.{pairs_in};

    ghost Value = { List HeldPair };

    ghost view = { λ h. pairs_in h.items.items };

    ghost invariant = { λ h. AreNamedApart (pairs_in h.items.items) };
}

impl HeldPairs {
    /// Returns a list that holds no pair. It allocates nothing.
    pub fn new(alloc: Global) -> HeldPairs
        ensures { result ≡ [] }
    {
        HeldPairs {
            items: Vec::new(alloc),
        }
    }

    /// Returns the pair that is held under a name, or `None`. It compares one name after the other.
    pub fn find(&self, name: &str) -> Option<&Lease>
        ensures { MatchOption result (pair_under self.now name.now ≡ None)
            (λ lease. pair_under self.now name.now ≡ Some lease.now) }
    {
        for held in &self.items {
            if held.name.as_str() == name {
                return Some(&held.lease);
            }
        }
        None
    }

    /// Holds a pair under a name under which none is held. If it runs out of memory, nothing changes.
    pub(crate) fn push(&mut self, name: String, lease: Lease) -> Result<(), NoMemory>
        requires apart { pair_under self.old (string_bytes name) ≡ None }
        ensures ok { OnOk result (self.new ≡ self.old ++ record { name = string_bytes name; pair = lease } ∷ []) }
        ensures err { OnErr result (self.new ≡ self.old) }
    {
        self.items.push(Held { name, lease })?;
        Ok(())
    }

    /// Releases the pair that is held under a name and returns the number of its operations, or `None`. It allocates
    /// nothing.
    pub(crate) fn release(&mut self, name: &str) -> Option<u64>
        ensures pair { MatchOption result (pair_under self.old name.now ≡ None)
            (λ n. (p : Published) × (pair_under self.old name.now ≡ Some p) × (n ≡ length p.history.seen)) }
        ensures rest { MatchOption result (self.new ≡ self.old) (λ n. self.new ≡ without self.old name.now) }
    {
        let operations = self.find(name)?.pair().operations();
        self.items.retain(|held| held.name.as_str() != name);
        Some(operations)
    }
}
