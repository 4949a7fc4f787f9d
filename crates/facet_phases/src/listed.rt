ghost use Rattle.std.specs.Prelude.{◌≡◌, ◌≤◌, map, All, IsTrue};
ghost use Rattle.facet_words.specs.CommandViews.{order_view};
ghost use Rattle.facet_words.specs.ScriptOrder.{lines_rise};

use crate::fault::PhaseFault;
use crate::phases::Phases;
use facet_words::Order;
use std::alloc::Global;
use std::marker::Model;
use std::vec::IntoIter;

/// The phases of a script that was read whole. It does not use the output, and does not fail.
#[derive(Drop)]
pub struct ListedPhases {
    left: IntoIter<Vec<Order>>,
    sessions: u32,
}

impl Model for ListedPhases {
    ghost use Rattle.std.specs.Coded.{codes};
    ghost use Rattle.std.specs.Prelude.{◌≤◌, map, All, IsTrue};
    ghost use Rattle.std.specs.Vec.Iter.{into_iter_items};
    ghost use Rattle.facet_words.specs.CommandViews.{order_view};
    ghost use Rattle.facet_words.specs.ScriptOrder.{lines_rise};
    ghost use Rattle.facet_words.specs.contracts.command.Order as e;
    ghost use Rattle.facet_phases.specs.Listing.{Listing};

    ghost Value = { Listing };

    ghost coded = { Prim.hlevel (codes, e.the_row.coded) };

    ghost view = { λ l. record {
      sessions = l.sessions;
      left = map (λ phase. phase.items) (into_iter_items l.left);
    } };

    ghost invariant = { λ l.
        All (λ phase. All (λ o. (1 ≤ o.session) × (o.session ≤ l.sessions)) phase.items) (into_iter_items l.left)
        × All (λ phase. IsTrue (lines_rise (map order_view phase.items))) (into_iter_items l.left) };
}

impl ListedPhases {
    /// Returns these phases, whose commands have sessions up to the number.
    pub fn new(phases: Vec<Vec<Order>>, sessions: u32) -> ListedPhases
        requires sessions { All (λ phase. All (λ o. (1 ≤ o.session) × (o.session ≤ sessions)) phase.items)
            phases.items }
        requires rise { All (λ phase. IsTrue (lines_rise (map order_view phase.items))) phases.items }
        ensures { result ≡ record { sessions = sessions; left = map (λ phase. phase.items) phases.items } }
    {
        ListedPhases {
            left: phases.into_iter(),
            sessions,
        }
    }
}

impl<O> Phases<O> for ListedPhases {
    ghost use Rattle.std.specs.Prelude.{◌≡◌};
    ghost use Rattle.facet_phases.specs.Listing.{IsGiven, IsOver};

    ghost sessions = { λ l. l.sessions };

    ghost gives = { λ before out now given orders. IsGiven before now orders × (given ≡ out) };

    ghost ends = { λ before out now given. IsOver before now × (given ≡ out) };

    ghost fails = { λ before out now given fault. ⊥ };

    fn next(&mut self, _alloc: Global, _out: &mut O) -> Result<Option<Vec<Order>>, PhaseFault> {
        Ok(self.left.next())
    }
}
