ghost use Rattle.std.specs.Prelude.{◌≡◌, ◌≤◌, ℕ, OnOk, OnErr, map, take, length};
ghost use Rattle.facet_model.specs.Core.{step as plain_step};
ghost use Rattle.facet_model.specs.CoreStates.{Valid};
ghost use Rattle.facet_core.specs.Laws.{ran};
ghost use Rattle.facet_core.specs.Views.{event_view};

use crate::event::Event;
use crate::machine::Core;
use facet_names::NoMemory;
use std::alloc::Global;

fn apply(alloc: Global, core: &mut Core, event: &Event) -> Result<(), NoMemory>
    ensures ok { OnOk result (core.new ≡ plain_step core.old (event_view event.now)) }
    ensures err { OnErr result (core.new ≡ core.old) }
{
    match event {
        Event::Label { path, .. } => core.add_label(alloc, path),
        Event::Append { session, change } => core.add_operation(alloc, *session, change),
        Event::TakeIndex { session } => {
            core.take_index(*session);
            Ok(())
        }
        Event::TakeLabels { session } => {
            core.take_labels(*session);
            Ok(())
        }
        Event::Publish { session } => core.publish(*session),
        Event::DropRefresh { session } => {
            core.drop_refresh(*session);
            Ok(())
        }
        Event::BeginCommit { .. } => {
            core.begin_commit();
            Ok(())
        }
        Event::DropCommit => {
            core.drop_commit();
            Ok(())
        }
        Event::Device { done } => core.device(alloc, *done),
        Event::Crash { keep } => core.crash(alloc, *keep),
    }
}

/// Applies an event to the core. An event that is not possible changes nothing.
///
/// Costs: a label and a document are copied. Each other event allocates memory for a few numbers at most.
///
/// Errors: out of memory; then the core is as before.
pub fn step(alloc: Global, core: &mut Core, event: &Event) -> Result<(), NoMemory>
    ensures ok { OnOk result (core.new ≡ plain_step core.old (event_view event.now)) }
    ensures err { OnErr result (core.new ≡ core.old) }
    ensures valid { Valid core.old → Valid core.new }
{
    apply(alloc, core, event)
}

/// Applies the events to the core, in order. Errors: out of memory; then a prefix of the events was applied.
pub fn run(alloc: Global, core: &mut Core, events: &[Event]) -> Result<(), NoMemory>
    ensures ok { OnOk result (core.new ≡ ran core.old (map event_view events.now)) }
    ensures prefix { (k : ℕ) × (k ≤ length events.now) × (core.new
        ≡ ran core.old (map event_view (take k events.now))) }
    ensures valid { Valid core.old → Valid core.new }
{
    for event in events {
        step(alloc, core, event)?;
    }
    Ok(())
}
