ghost use Rattle.std.specs.Prelude.{◌≡◌, List, ℕ};
ghost use Rattle.seg_postings.specs.Rising.{IsRising, IsNext, is_in, from_place};

use crate::node::PlanNode;
use seg_postings::Places;
use std::marker::Model;

/// The places of a node, one after the other. No call allocates.
#[derive(Drop)]
pub struct PlanPlaces<'a> {
    node: PlanNode<'a>,
    // where what is left begins
    next: u64,
}

impl<'a> Model for PlanPlaces<'a> {
    ghost use Rattle.std.specs.Prelude.{List, ℕ, ◌≤◌};
    ghost use Rattle.seg_postings.specs.Rising.{IsRising, from_place};

    ghost Value = { List ℕ };

    ghost view = { λ p. from_place p.next p.node.left };

    ghost invariant = { λ p. (p.next ≤ 4294967296) × IsRising p.node.left };
}

impl<'a> PlanPlaces<'a> {
    /// Returns all places that the node has left. It finds the first one.
    pub fn new(node: PlanNode<'a>) -> PlanPlaces<'a>
        ensures left { result ≡ node.entry.left }
        ensures rising { IsRising result }
    {
        let mut node = node;
        let _first = node.at_least(0);
        PlanPlaces { node, next: 0 }
    }

    /// Returns whether `place` is left. The places before it are passed; it is not.
    pub fn has(&mut self, place: u32) -> bool
        ensures has { result ≡ is_in place self.old }
        ensures left { self.new ≡ from_place place self.old }
    {
        self.pass(place);
        self.node.at_least(self.next) == Some(place)
    }

    // Passes the places before `place`.
    fn pass(&mut self, place: u32)
        ensures rising { IsRising self.old }
        ensures moved { self.new ≡ from_place place self.old }
    {
        if self.next < place as u64 {
            self.next = place as u64;
        }
    }
}

impl<'a> Places for PlanPlaces<'a> {
    ghost left = { λ p. p };

    fn next(&mut self) -> Option<u32> {
        let place = self.node.at_least(self.next)?;
        self.next = place as u64 + 1;
        Some(place)
    }

    fn seek(&mut self, place: u32) -> Option<u32> {
        self.pass(place);
        self.next()
    }
}
