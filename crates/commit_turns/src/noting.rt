ghost use Rattle.std.specs.Prelude.{◌≡◌, ◌≤◌, ◌<◌, ◌^◌, ◌+◌, ◌↔◌, ℕ, Some, Err, IfErr, IfOk, length, map};
ghost use Rattle.std.specs.Arc.{arc_value};
ghost use Rattle.facet_model.specs.Stored.{Decodes};
ghost use Rattle.facet_names.specs.Labels.{IsLabelList};
ghost use Rattle.facet_disk.specs.Calls.{Rose};
ghost use Rattle.seg_documents.specs.Decoding.{records_in};
ghost use Rattle.seg_documents.specs.Storing.{AreStored};
ghost use Rattle.commit_plan.specs.declared.fault.CommitFault.TheVariants.{Disk as OfDisk, Closed, NumbersSpent};
ghost use Rattle.taxo_cache.specs.Seen.{labels_of};
ghost use Rattle.commit_turns.specs.Points.{entered, made, failed_after};
ghost use Rattle.commit_turns.specs.Seen.{docs_of};
ghost use Rattle.commit_turns.specs.Turns.{StandsOn, KeepsFrame};

use crate::start::Start;
use crate::turn::CommitTurn;
use commit_store::CommitFault;
use facet_disk::Disk;
use pair_manager::CommitPoint;
use seg_file::Segment;
use std::sync::Arc;
use taxo_list::{Labelled, TaxoView};

impl<D: Disk, N: Start> CommitTurn<D, N> {
    /// Commits a view and segments, which have all that is noted. If the commit is acknowledged or fails on the disk,
    /// `last` is the point to enter.
    pub(crate) fn commit_noted(
        &mut self,
        view: &TaxoView,
        segments: &[Arc<Segment>],
        operations: u64,
    ) -> Result<u64, CommitFault>
        requires list { IsLabelList view.now }
        requires own { AreStored (map arc_value segments.now) }
        requires few { length (records_in (map arc_value segments.now)) ≤ 1000000 }
        requires decodes { Decodes view.now self.old.committer.config (map arc_value segments.now)
            (docs_of self.old.operations.seen) }
        requires labels { view.now ≡ labels_of self.old.labels.seen }
        requires operations { operations ≡ length self.old.operations.seen }

        // That point is marked with the disk as it then is, and the points before it stay marked as they were.
        ensures stands { StandsOn self.old self.new (entered self.old.last (length view.now) result) }

        ensures notes { (self.new.labels ≡ self.old.labels) × (self.new.operations ≡ self.old.operations) }
        ensures frame { KeepsFrame self.old self.new }
        ensures ok { IfOk result (λ n. (n ≡ operations) × (self.new.last ≡ made n (length view.now))) }
        ensures failed { IfErr result
            (λ e. (count : ℕ) → e ≡ OfDisk count → self.new.last ≡ failed_after self.old.last count) }
        ensures closed { (count : ℕ) → (self.old.committer.closed ≡ Some count) ↔ (result ≡ Err (Closed count)) }
        ensures disk { IfErr result (λ e. (count : ℕ) → e ≡ OfDisk count
            → Rose (D.faults self.old.committer.disk) count) }
        ensures spent { IfErr result (λ e. (number : ℕ) → e ≡ NumbersSpent number
            → (2 ^ 63 ≤ number) × (number < self.old.committer.state.next + 1000003)) }
    {
        match self.committer.commit(view, segments) {
            Ok(()) => {
                self.last = CommitPoint {
                    operations,
                    labels: view.size(),
                    failed: None,
                };
                Ok(operations)
            }
            Err(CommitFault::Disk { count }) => {
                self.last.failed = Some(count);
                Err(CommitFault::Disk { count })
            }
            Err(CommitFault::Closed { count }) => Err(CommitFault::Closed { count }),
            Err(CommitFault::NoMemory) => Err(CommitFault::NoMemory),
            Err(CommitFault::NumbersSpent { number }) => Err(CommitFault::NumbersSpent { number }),
        }
    }
}
