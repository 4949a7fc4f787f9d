ghost use Rattle.std.specs.Prelude.{◌≡◌, ◌≢◌, ◌≤◌, ◌<◌, ◌-◌, ◌^◌, map, OnOk};
ghost use Rattle.facet_disk.specs.declared.name.Kind.TheVariants.{Commit};
ghost use Rattle.commit_calls.specs.Plans.{Rises};
ghost use Rattle.commit_calls.specs.Outcomes.{file_view};
ghost use Rattle.commit_plan.specs.Drafts.{with_file, nothing_drafted};

use commit_calls::{Plan, Write};
use facet_disk::{Dir, FileName, Kind};
use facet_names::NoMemory;
use std::alloc::Global;
use std::marker::Model;

/// The files that a commit is to write, in order. Each takes the next number.
#[derive(Drop)]
pub(crate) struct Draft {
    from: u64,
    next: u64,
    writes: Vec<Write>,
}

impl Model for Draft {
    ghost use Rattle.std.specs.Prelude.{◌≤◌, map};
    ghost use Rattle.commit_calls.specs.Plans.{Rises};
    ghost use Rattle.commit_calls.specs.Outcomes.{file_view};
    ghost use Rattle.commit_plan.specs.Drafts.{Drafted};

    ghost Value = { Drafted };

    ghost view = { λ d. record { from = d.from; next = d.next; files = map file_view d.writes.items } };

    ghost invariant = { λ d. (d.from ≤ d.next) × Rises d.from d.next d.writes.items };
}

impl Draft {
    /// Returns a draft without a file. `next` is the number of the first file.
    pub fn new(alloc: Global, next: u64) -> Draft
        ensures { result ≡ nothing_drafted next }
    {
        Draft {
            from: next,
            next,
            writes: Vec::new(alloc),
        }
    }

    /// Returns the number that the next file takes.
    pub fn next(&self) -> u64
        ensures { result ≡ self.now.next }
    {
        self.next
    }

    /// Adds a file, which is not a commit file. Errors: out of memory.
    pub fn put(&mut self, dir: Dir, kind: Kind, bytes: Vec<u8>) -> Result<(), NoMemory>
        requires number { self.old.next < 2 ^ 64 - 1 }
        requires kind { kind ≢ Commit }
        ensures { OnOk result (self.new ≡ with_file self.old dir kind bytes.items) }
    {
        let name = FileName {
            dir,
            kind,
            number: self.next,
        };
        self.writes.push(Write { name, bytes })?;
        self.next += 1;
        Ok(())
    }

    /// Returns the plan that writes these files.
    pub fn into_plan(self, taxonomy: Option<u64>, index: Option<u64>, strays: Vec<FileName>) -> Plan
        ensures numbers { (result.from ≡ self.from) × (result.to ≡ self.next) }
        ensures files { map file_view result.writes.items ≡ self.files }
        ensures rises { (result.from ≤ result.to) × Rises result.from result.to result.writes.items }
        ensures parts { (result.taxonomy ≡ taxonomy) × (result.index ≡ index) × (result.strays.items ≡ strays.items) }
    {
        Plan {
            from: self.from,
            to: self.next,
            writes: self.writes,
            taxonomy,
            index,
            strays,
        }
    }
}
