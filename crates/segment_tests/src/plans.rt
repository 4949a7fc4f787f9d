ghost use Rattle.std.specs.Prelude.{◌<◌, length, IfOk};

use crate::bits::are_in_common;
use crate::making::{all, sought, spelled};
use crate::places::far_ahead_are_sought;
use plan_places::{PlanNode, PlanPlaces};
use seg_postings::{Places, Postings};
use std::alloc::{AllocFailed, Global};
use std::test::Fail;

// Returns whether these are all places of the node.
fn has_all(alloc: Global, node: PlanNode<'_>, want: &[u32]) -> Result<bool, Fail> {
    let walked = all(alloc, PlanPlaces::new(node))?;
    Ok(walked.as_slice() == want)
}

// Returns two nodes.
fn pair<'a>(
    alloc: Global,
    left: PlanNode<'a>,
    right: PlanNode<'a>,
) -> Result<Vec<PlanNode<'a>>, AllocFailed<PlanNode<'a>>>
    ensures { IfOk result (λ pair. 0 < length pair.items) }
{
    let mut pair = Vec::new(alloc);
    pair.push(left)?;
    pair.push(right)?;
    Ok(pair)
}

fn either<'a>(
    alloc: Global,
    left: &Postings<'a>,
    right: &Postings<'a>,
) -> Result<PlanNode<'a>, Fail> {
    let nodes = pair(alloc, PlanNode::list(left), PlanNode::list(right))?;
    Ok(PlanNode::any(nodes))
}

fn both<'a>(
    alloc: Global,
    left: &Postings<'a>,
    right: &Postings<'a>,
) -> Result<PlanNode<'a>, Fail> {
    let nodes = pair(alloc, PlanNode::list(left), PlanNode::list(right))?;
    Ok(PlanNode::all(alloc, nodes, Vec::new(alloc))?)
}

// Returns the left without the right and without 0.
fn lacking<'a>(
    alloc: Global,
    left: &Postings<'a>,
    right: &Postings<'a>,
) -> Result<PlanNode<'a>, Fail> {
    let nodes = pair(alloc, PlanNode::list(right), PlanNode::below(1))?;
    Ok(PlanNode::without(alloc, PlanNode::list(left), nodes)?)
}

// left, right, their union and intersection, and the left without the right and without 0
const SETS: &[[&[u32]; 5]] = &[
    [&[], &[], &[], &[], &[]],
    [&[], &[2], &[2], &[], &[]],
    [&[1, 2], &[1, 2], &[1, 2], &[1, 2], &[]],
    [
        &[0, 4294967295],
        &[4294967295],
        &[0, 4294967295],
        &[4294967295],
        &[],
    ],
    [&[0, 2], &[2], &[0, 2], &[2], &[]],
    [&[7], &[], &[7], &[], &[7]],
    [
        &[1, 3, 5, 9],
        &[3, 4, 9, 12],
        &[1, 3, 4, 5, 9, 12],
        &[3, 9],
        &[1, 5],
    ],
    [
        &[5, 4294967295],
        &[4294967295],
        &[5, 4294967295],
        &[4294967295],
        &[5],
    ],
];

fn are_combined(
    alloc: Global,
    left: &Postings<'_>,
    right: &Postings<'_>,
    wants: [&[u32]; 3],
) -> Result<bool, Fail> {
    let any = has_all(alloc, either(alloc, left, right)?, wants[0])?;
    let all = has_all(alloc, both(alloc, left, right)?, wants[1])?;
    let without = has_all(alloc, lacking(alloc, left, right)?, wants[2])?;
    Ok(any && all && without)
}

fn is_row(alloc: Global, row: &[&[u32]; 5]) -> Result<bool, Fail> {
    let [left, right, union, both, lacking] = *row;
    let left = spelled(alloc, left)?;
    let right = spelled(alloc, right)?;
    let wants = [union, both, lacking];
    are_combined(alloc, &Postings::new(&left), &Postings::new(&right), wants)
}

fn are_sets(alloc: Global) -> Result<bool, Fail> {
    for row in SETS {
        if !is_row(alloc, row)? {
            return Ok(false);
        }
    }
    Ok(true)
}

#[test]
fn set_operations(rt: HostRuntime) -> Result<(), Fail> {
    let alloc = rt.alloc();
    assert!(rt; are_sets(alloc)? && are_in_common(alloc)?);
    Ok(())
}

// Returns the left without the right.
fn left_alone<'a>(
    alloc: Global,
    left: &Postings<'a>,
    right: &Postings<'a>,
) -> Result<PlanNode<'a>, Fail> {
    let nodes = vec![in alloc; PlanNode::list(right)]?;
    Ok(PlanNode::without(alloc, PlanNode::list(left), nodes)?)
}

// What is found in the union, the intersection and the difference from a place on: the first place, and the next one.
type Found = [(Option<u32>, Option<u32>); 3];

fn is_found(
    alloc: Global,
    left: &Postings<'_>,
    right: &Postings<'_>,
    place: u32,
    want: Found,
) -> Result<bool, Fail> {
    let any = sought(PlanPlaces::new(either(alloc, left, right)?), place);
    let all = sought(PlanPlaces::new(both(alloc, left, right)?), place);
    let without = sought(PlanPlaces::new(left_alone(alloc, left, right)?), place);
    Ok([any, all, without] == want)
}

fn are_found(alloc: Global, left: &Postings<'_>, right: &Postings<'_>) -> Result<bool, Fail> {
    let rows = [
        (
            0,
            [(Some(1), Some(3)), (Some(3), Some(9)), (Some(1), Some(5))],
        ),
        (4, [(Some(4), Some(5)), (Some(9), None), (Some(5), None)]),
        (9, [(Some(9), Some(12)), (Some(9), None), (None, None)]),
        (13, [(None, None), (None, None), (None, None)]),
    ];
    for (place, want) in rows {
        if !is_found(alloc, left, right, place, want)? {
            return Ok(false);
        }
    }
    Ok(true)
}

fn sets_are_sought(alloc: Global) -> Result<bool, Fail> {
    let left = spelled(alloc, &[1, 3, 5, 9])?;
    let right = spelled(alloc, &[3, 4, 9, 12])?;
    are_found(alloc, &Postings::new(&left), &Postings::new(&right))
}

// Returns the places of the node within this many levels of intersections.
fn nested<'a>(alloc: Global, node: PlanNode<'a>, levels: u32) -> Result<PlanNode<'a>, Fail> {
    let mut node = node;
    for _ in 0..levels {
        let nodes = pair(alloc, node, PlanNode::below(8))?;
        node = PlanNode::all(alloc, nodes, Vec::new(alloc))?;
    }
    Ok(node)
}

// Each place that is asked for among 3, 4 and 7, and whether it is left.
const ASKED: &[(u32, bool)] = &[(1, false), (2, false), (3, true), (3, true), (5, false)];

fn are_asked_for(places: &mut PlanPlaces<'_>) -> bool {
    for (place, want) in ASKED {
        if places.has(*place) != *want {
            return false;
        }
    }
    true
}

// Returns whether the places of a node within 32 levels of intersections are found as they are asked for.
fn nested_are_sought(alloc: Global) -> Result<bool, Fail> {
    let bytes = spelled(alloc, &[1, 3, 4, 7, 9])?;
    let node = nested(alloc, PlanNode::list(&Postings::new(&bytes)), 32)?;
    let mut places = PlanPlaces::new(node);
    let asked = places.next() == Some(1) && are_asked_for(&mut places);
    let ahead = places.seek(4) == Some(7) && places.seek(8).is_none();
    Ok(asked && ahead && !places.has(9))
}

#[test]
fn seeks(rt: HostRuntime) -> Result<(), Fail> {
    let alloc = rt.alloc();
    assert!(rt;
        sets_are_sought(alloc)? && nested_are_sought(alloc)? && far_ahead_are_sought(alloc)?
    );
    Ok(())
}
