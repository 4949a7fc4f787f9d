ghost use Rattle.std.specs.Prelude.{◌≡◌, ◌≤◌, ℕ, List, None, map, All, IfOk, IfErr, IsTrue};
ghost use Rattle.std.specs.Option.{IfSome};
ghost use Rattle.facet_words.specs.CommandViews.{order_view};
ghost use Rattle.facet_words.specs.Commands as plain;
ghost use Rattle.facet_words.specs.ScriptOrder.{lines_rise};

use crate::fault::PhaseFault;
use facet_words::Order;
use std::alloc::Global;

/// Gives phases one after the other. The next one is asked for once the replies of the one before were handed over. It
/// may use the output, for example to announce what it reads.
pub trait Phases<O> {
    ghost use Rattle.facet_phases.specs.declared.fault.PhaseFault.{PhaseFault};

    /// The greatest number that a session of its commands may have.
    ghost sessions: { Self → ℕ };

    /// It gave these commands as a phase: what it and the output were before, and are then.
    ghost gives: { Self → O → Self → O → List plain.Order → Type 0 };

    /// There is no further phase: what it and the output were before, and are then.
    ghost ends: { Self → O → Self → O → Type 0 };

    /// It failed: what it and the output were before, and are then.
    ghost fails: { Self → O → Self → O → PhaseFault → Type 0 };

    /// Returns the commands of the next phase, or `None` if there is none. The lines of the commands rise.
    ///
    /// Errors: as the implementation defines them, for example `Read` if a read failed.
    fn next(&mut self, alloc: Global, out: &mut O) -> Result<Option<Vec<Order>>, PhaseFault>
        ensures same { sessions self.new ≡ sessions self.old }
        ensures sessions { IfOk result (λ next. IfSome next (λ orders.
            All (λ o. (1 ≤ o.session) × (o.session ≤ sessions self.old)) orders.items)) }
        ensures rise { IfOk result (λ next. IfSome next (λ orders.
            IsTrue (lines_rise (map order_view orders.items)))) }
        ensures gave { IfOk result (λ next. IfSome next (λ orders.
            gives self.old out.old self.new out.new (map order_view orders.items))) }
        ensures ended { IfOk result (λ next. next ≡ None → ends self.old out.old self.new out.new) }
        ensures failed { IfErr result (λ fault. fails self.old out.old self.new out.new fault) };
}
