ghost use Rattle.std.specs.Prelude.{◌≡◌, ◌≤◌, ◌<◌, ◌&&◌, not, ℕ, IfOk, length};
ghost use Rattle.std.specs.List.{range_with_len, All};
ghost use Rattle.seg_postings.specs.Rising.{IsRising, is_in, first_of};
ghost use Rattle.seg_postings.specs.Sets.{without};
ghost use Rattle.plan_places.specs.Marks.{IsMarkable, AreMarkedToo};
ghost use Rattle.plan_places.specs.Planned.{moved_to, any_of, all_have};

use crate::conjunction::Conjunction;
use crate::leaf::Leaf;
use crate::listed::Listed;
use crate::places::PlanPlaces;
use crate::range::Range;
use crate::union::any_at_least;
use facet_names::NoMemory;
use place_bits::Bits;
use seg_postings::{Places, Postings};
use std::alloc::Global;
use std::marker::Model;

/// Places that are asked for from left to right: a range, a list, or a set operation over other nodes.
///
/// A node has an upper bound of its number of places, which orders the parts of an intersection. It is computed from
/// the node's parts when it is made.
#[derive(Drop)]
#[cycle(node)]
pub struct PlanNode<'a> {
    kind: Kind<'a>,
    at_most: u64,
}

#[derive(Drop)]
#[cycle(node)]
pub(crate) enum Kind<'a> {
    /// All places of a range.
    Range(Range),
    /// The places of a list.
    Term(Leaf<'a>),
    /// The places of a borrowed list of numbers.
    Listed(Listed<'a>),
    /// The places of any child.
    Any(Vec<PlanNode<'a>>),
    /// The places of all of some children and of none of others.
    All(Conjunction<'a>),
}

impl<'a> Model for PlanNode<'a> {
    ghost use Rattle.plan_places.specs.Planned.{Planned};

    ghost Value = { Planned };

    ghost use Rattle.plan_places.specs.Nodes.{planned, IsPlanned};

    ghost view = { λ p. planned p.kind };

    ghost invariant = { λ p. IsPlanned p.kind };

    ghost size = { λ v. v.nodes };

    ghost use Rattle.plan_places.specs.Falls.{falls};

    ghost size_decreases = { λ a h. falls a.kind };
}

impl<'a> PlanNode<'a> {
    /// Returns the places below `end`. It allocates nothing.
    pub fn below(end: u32) -> PlanNode<'a>
        ensures { result.left ≡ range_with_len 0 end }
    {
        PlanNode {
            kind: Kind::Range(Range { next: 0, end }),
            at_most: end as u64,
        }
    }

    /// Returns the places of a list. It reads the first one, and allocates nothing.
    pub fn list(postings: &Postings<'a>) -> PlanNode<'a>
        ensures { result.left ≡ postings.now }
    {
        let mut cursor = postings.cursor();
        let head = cursor.next();
        PlanNode {
            kind: Kind::Term(Leaf { head, cursor }),
            at_most: postings.len() as u64,
        }
    }

    /// Returns the places of a borrowed list of numbers. It reads none of them, and allocates nothing.
    pub fn listed(places: &'a [u32]) -> PlanNode<'a>
        requires { IsRising places.now }
        ensures { result.left ≡ places.now }
    {
        PlanNode {
            kind: Kind::Listed(Listed { places }),
            at_most: places.len() as u64,
        }
    }

    /// Returns the places that at least one child has. Each step asks each child once. It allocates nothing.
    pub fn any(children: Vec<PlanNode<'a>>) -> PlanNode<'a>
        ensures { result.left ≡ any_of children.entry.items }
    {
        let mut at_most = 0;
        for child in &children {
            at_most = child.at_most.saturating_add(at_most);
        }
        PlanNode {
            kind: Kind::Any(children),
            at_most,
        }
    }

    /// Returns the places that each of the children has and no excluded node has. There is at least one child.
    ///
    /// The child with the fewest places leads. The others are asked from each of its places on, the next fewest first.
    /// If one of them continues later, the lead skips to that place. The excluded nodes are asked only for places that
    /// all children have.
    ///
    /// Errors: out of memory.
    pub fn all(
        alloc: Global,
        children: Vec<PlanNode<'a>>,
        excluded: Vec<PlanNode<'a>>,
    ) -> Result<PlanNode<'a>, NoMemory>
        requires { 0 < length children.items }
        ensures members { IfOk result (λ r. (n : ℕ) → is_in n r.left
            ≡ (all_have n children.entry.items && not (is_in n (any_of excluded.entry.items)))) }
        ensures rising { All (λ p. IsRising p.left) children.entry.items → IfOk result (λ r. IsRising r.left) }
    {
        let mut others = children;
        others.sort_unstable_by_key(|child| child.at_most);
        let lead = others.remove(0);
        let at_most = lead.at_most;
        let lead = Box::new(alloc, lead)?;
        Ok(PlanNode {
            kind: Kind::All(Conjunction {
                lead,
                others,
                excluded,
            }),
            at_most,
        })
    }

    /// Returns the places of the node that no excluded node has. These are asked only for places of the node. Errors:
    /// out of memory.
    pub fn without(
        alloc: Global,
        node: PlanNode<'a>,
        excluded: Vec<PlanNode<'a>>,
    ) -> Result<PlanNode<'a>, NoMemory>
        ensures { IfOk result (λ r. r.left ≡ without node.entry.left (any_of excluded.entry.items)) }
    {
        let at_most = node.at_most;
        let lead = Box::new(alloc, node)?;
        Ok(PlanNode {
            kind: Kind::All(Conjunction {
                lead,
                others: Vec::new(alloc),
                excluded,
            }),
            at_most,
        })
    }

    /// Returns an upper bound of the number of places, computed when the node was made. It is an estimate for choosing
    /// how to visit them. No contract depends on it.
    pub fn at_most(&self) -> u64 {
        self.at_most
    }

    /// Returns whether the places are those of lists, which `mark` visits without asking for one after the other. No
    /// contract depends on it.
    pub fn is_of_lists(&self) -> bool {
        matches!(self.kind, Kind::Term(_) | Kind::Any(_))
    }

    /// Marks all places in a set. A list is visited in one pass, and so are the lists of a union; any other node is
    /// asked place by place. It allocates nothing.
    pub fn mark(self, bits: &mut Bits)
        requires { IsMarkable bits.old self.left }
        ensures { AreMarkedToo self.entry.left bits.new bits.old }
    {
        match self.kind {
            Kind::Any(children) => mark_each(children, bits),
            kind => mark_one(
                PlanNode {
                    kind,
                    at_most: self.at_most,
                },
                bits,
            ),
        }
    }

    /// Returns the first place left that is at least `place`, or `None`. The places before it are passed; it is not. It
    /// allocates nothing.
    #[cycle(at_least)]
    pub fn at_least(&mut self, place: u64) -> Option<u32>
        requires { place ≤ 4294967296 }
        ensures rising { IsRising self.old.left }
        ensures first { result ≡ first_of self.new.left }
        ensures moved { self.new ≡ moved_to place self.old }
    {
        match &mut self.kind {
            Kind::Range(range) => range.at_least(place),
            Kind::Term(leaf) => leaf.at_least(place),
            Kind::Listed(listed) => listed.at_least(place),
            Kind::Any(children) => any_at_least(children, place),
            Kind::All(conjunction) => conjunction.at_least(place),
        }
    }
}

// Marks the places of each child.
fn mark_each(children: Vec<PlanNode<'_>>, bits: &mut Bits)
    requires { IsMarkable bits.old (any_of children.items) }
    ensures { AreMarkedToo (any_of children.entry.items) bits.new bits.old }
{
    let mut children = children;
    while let Some(child) = children.pop() {
        mark_one(child, bits);
    }
}

// Marks the places of a node: those of a list in one pass, and those of any other node one after the other.
fn mark_one(node: PlanNode<'_>, bits: &mut Bits)
    requires { IsMarkable bits.old node.left }
    ensures { AreMarkedToo node.entry.left bits.new bits.old }
{
    match node.kind {
        Kind::Term(leaf) => leaf.mark(bits),
        kind => {
            let at_most = node.at_most;
            let mut places = PlanPlaces::new(PlanNode { kind, at_most });
            bits.mark(&mut places);
        }
    }
}
