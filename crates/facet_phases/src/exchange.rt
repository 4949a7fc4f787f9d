ghost use Rattle.std.specs.Prelude.{◌≡◌, All};
ghost use Rattle.std.specs.List.{AllZip};
ghost use Rattle.facet_output.specs.Seen.{Sees};
ghost use Rattle.facet_engine.specs.Ending.{NamesOwn};
ghost use Rattle.facet_engine.specs.Notes.{noted, AreOf};
ghost use Rattle.facet_engine.specs.Sessions.{HaveOneNumber};
ghost use Rattle.facet_engine.specs.Steps.{seen_of};
ghost use Rattle.facet_engine.specs.Systems.{BelongsTo};
ghost use Rattle.facet_engine.specs.Exchange.{AreCounted};
ghost use Rattle.facet_phases.specs.Lanes.{AllOf, Gathers, LaneTold};

use crate::lane::Lane;
use commit_turns::Start;
use facet_disk::Disk;
use facet_engine::{Notes, System};
use pair_manager::Pass;
use taxo_cache::Name;

// Tells the first pass what a session has seen.
fn gather_lane<D: Disk, N: Name + Start, C>(
    system: &System<D, N>,
    first: &mut Pass,
    lane: &mut Lane<C>,
)
    requires own { BelongsTo system.now first.old × BelongsTo system.now lane.old.session.pass }
    requires first { HaveOneNumber 0 first.old }
    ensures lane { lane.new ≡ lane.old }
    ensures gathered { Gathers first.old first.new }
    ensures knows { Sees (seen_of lane.old.session.pass) (seen_of first.new) }
{
    system.gather(first, &mut lane.session);
}

// Tells the first pass what all sessions have seen.
fn gather_all<D: Disk, N: Name + Start, C>(
    system: &System<D, N>,
    first: &mut Pass,
    lanes: &mut [Lane<C>],
)
    requires own { BelongsTo system.now first.old × AllOf system.now lanes.old }
    requires first { HaveOneNumber 0 first.old × AreCounted first.old }
    ensures lanes { lanes.new ≡ lanes.old }
    ensures gathered { Gathers first.old first.new }
    ensures knows { All (λ l. Sees (seen_of l.session.pass) (seen_of first.new)) lanes.old }
{
    for lane in lanes.iter_mut() {
        gather_lane(system, first, lane);
    }
}

// Tells a session what the notes show, which is all that it has seen, or more.
fn spread_to_lane<D: Disk, N: Name + Start, C>(
    system: &System<D, N>,
    lane: &mut Lane<C>,
    notes: &mut Notes,
)
    requires own { BelongsTo system.now lane.old.session.pass × AreOf system.now notes.old }
    requires knows { Sees (seen_of lane.old.session.pass) (noted notes.old) }
    ensures notes { notes.new ≡ notes.old }
    ensures told { LaneTold (noted notes.old) lane.old lane.new }
    ensures named { NamesOwn lane.new.session.number notes.old }
{
    system.spread(&mut lane.session, notes);
}

/// Shows all sessions what is in the notes. It allocates nothing and takes no lock.
pub(crate) fn spread_all<D: Disk, N: Name + Start, C>(
    system: &System<D, N>,
    lanes: &mut [Lane<C>],
    notes: &mut Notes,
)
    requires own { AllOf system.now lanes.old × AreOf system.now notes.old }
    requires knows { All (λ l. Sees (seen_of l.session.pass) (noted notes.old)) lanes.old }
    ensures notes { notes.new ≡ notes.old }
    ensures told { AllZip (LaneTold (noted notes.old)) lanes.old lanes.new }
    ensures named { All (λ l. NamesOwn l.session.number notes.old) lanes.new }
{
    for lane in lanes.iter_mut() {
        spread_to_lane(system, lane, notes);
    }
}

/// Shows the first pass what all sessions have seen, and then each session what the first pass has. It allocates
/// nothing and takes no lock.
pub(crate) fn exchange_all<D: Disk, N: Name + Start, C>(
    system: &System<D, N>,
    first: &mut Pass,
    lanes: &mut [Lane<C>],
)
    requires own { BelongsTo system.now first.old × AllOf system.now lanes.old }
    requires first { HaveOneNumber 0 first.old × AreCounted first.old }
    ensures gathered { Gathers first.old first.new }
    ensures told { AllZip (LaneTold (seen_of first.new)) lanes.old lanes.new }
{
    gather_all(system, first, lanes);
    let mut notes = system.notes(first);
    spread_all(system, lanes, &mut notes);
}
