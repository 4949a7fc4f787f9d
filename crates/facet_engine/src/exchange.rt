ghost use Rattle.std.specs.Prelude.{◌≡◌, ◌<◌, ◌+◌, ◌-◌, ◌^◌, ℕ, []};
ghost use Rattle.chronicle.specs.History.{entries};
ghost use Rattle.chronicle.specs.Shown.{IsCounted, IsNoteOf};
ghost use Rattle.taxo_cache.specs.Seen.{SeesLabels};
ghost use Rattle.facet_output.specs.Seen.{Sees};
ghost use Rattle.pair_manager.specs.Published.{ArePublications};
ghost use Rattle.facet_engine.specs.Calls.{SameSession};
ghost use Rattle.facet_engine.specs.Notes.{noted, AreOf};
ghost use Rattle.facet_engine.specs.Sessions.{HaveOneNumber};
ghost use Rattle.facet_engine.specs.Steps.{seen_of};
ghost use Rattle.facet_engine.specs.Systems.{BelongsTo};
ghost use Rattle.facet_engine.specs.Exchange.{AreCounted, HaveMade, MakesOneOfEach, Meets};

use crate::held::HeldPairs;
use crate::notes::Notes;
use crate::session::Session;
use crate::system::System;
use chronicle::Token;
use commit_turns::Start;
use facet_disk::Disk;
use facet_names::Path;
use index_state::Operation;
use pair_manager::{CommitPoint, Pass, Publication};
use taxo_cache::Name;

impl<D: Disk, N: Name + Start> System<D, N> {
    // A note of each of the four tokens, which may hold their turns.
    pub(crate) fn note_each(
        &self,
        labels: &mut Token<Path>,
        operations: &mut Token<Operation>,
        pairs: &mut Token<Publication>,
        commits: &mut Token<CommitPoint>,
    ) -> Notes
        requires labels { (labels.old.identity ≡ self.now.manager.writer.labels) × SeesLabels labels.old }
        requires operations { operations.old.identity ≡ self.now.manager.operations }
        requires pairs { pairs.old.identity ≡ self.now.manager.pairs }
        requires commits { commits.old.identity ≡ self.now.commits }
        requires right { ArePublications labels.old.seen operations.old.seen (entries pairs.old.seen) }
        ensures labels { (labels.new ≡ labels.old) × IsNoteOf labels.old result.labels × IsCounted labels.old }
        ensures operations { (operations.new ≡ operations.old) × IsNoteOf operations.old result.operations
            × IsCounted operations.old }
        ensures pairs { (pairs.new ≡ pairs.old) × IsNoteOf pairs.old result.pairs × IsCounted pairs.old }
        ensures commits { (commits.new ≡ commits.old) × IsNoteOf commits.old result.commits × IsCounted commits.old }
    {
        let labels = self.manager.writer().note(labels);
        let operations = self.manager.operations().note(operations);
        let pairs = self.manager.pairs().note(pairs);
        let commits = self.commits.note(commits);
        Notes {
            labels,
            operations,
            pairs,
            commits,
        }
    }

    /// Returns notes of what the pass has seen. It allocates nothing and takes no lock.
    pub fn notes(&self, of: &mut Pass) -> Notes
        requires own { BelongsTo self.now of.old }
        ensures pass { of.new ≡ of.old }
        ensures own { AreOf self.now result }
        ensures seen { noted result ≡ seen_of of.old }
        ensures counted { AreCounted of.old }
    {
        self.note_each(
            &mut of.labels,
            &mut of.operations,
            &mut of.pairs,
            &mut of.commits,
        )
    }

    // The same notes once more.
    fn notes_again(&self, of: &mut Notes) -> Notes
        requires own { AreOf self.now of.old }
        ensures notes { of.new ≡ of.old }
        ensures own { AreOf self.now result }
        ensures seen { noted result ≡ noted of.old }
        ensures operations { result.operations.seen ≡ of.old.operations.seen }
    {
        self.note_each(
            &mut of.labels,
            &mut of.operations,
            &mut of.pairs,
            &mut of.commits,
        )
    }

    // Tells the pass what the notes show.
    fn meet_all(&self, pass: &mut Pass, notes: Notes)
        requires own { BelongsTo self.now pass.old × AreOf self.now notes }
        ensures told { (number : ℕ) → HaveOneNumber number pass.old → Meets number pass.old pass.new (noted notes)
            × (Sees (seen_of pass.old) (noted notes) → pass.new.operations.seen ≡ notes.operations.seen) }
    {
        let Notes {
            labels,
            operations,
            pairs,
            commits,
        } = notes;
        self.manager.writer().meet(&mut pass.labels, labels);
        self.manager
            .operations()
            .meet(&mut pass.operations, operations);
        self.manager.pairs().meet(&mut pass.pairs, pairs);
        self.commits.meet(&mut pass.commits, commits);
    }

    /// Makes the next session, which has seen what the first pass has. The k-th call returns session k. It allocates
    /// nothing and takes no lock.
    pub fn session(&self, first: &mut Pass) -> Session
        requires own { BelongsTo self.now first.old }
        requires numbers { HaveOneNumber 0 first.old }
        requires made { HaveMade first.old.labels.made first.old }
        requires room { first.old.labels.made < 2 ^ 32 - 1 }
        ensures first { MakesOneOfEach first.old first.new }
        ensures own { BelongsTo self.now first.new × BelongsTo self.now result.pass }
        ensures counted { AreCounted first.new }
        ensures seen { (seen_of first.new ≡ seen_of first.old) × (seen_of result.pass ≡ seen_of first.old) }
        ensures frames { (result.pass.operations.frame ≡ first.old.operations.frame)
            × (result.pass.commits.frame ≡ first.old.commits.frame) }
        ensures number { result.number ≡ first.old.labels.made + 1 }
        ensures held { result.held ≡ [] }
    {
        let labels = self.manager.writer().token(&mut first.labels);
        let operations = self.manager.operations().token(&mut first.operations);
        let pairs = self.manager.pairs().token(&mut first.pairs);
        let commits = self.commits.token(&mut first.commits);
        let number = labels.number() as u32;
        let pass = Pass {
            labels,
            operations,
            pairs,
            commits,
        };
        Session {
            number,
            pass,
            held: HeldPairs::new(self.alloc),
        }
    }

    /// Shows the first pass what a session has seen. It allocates nothing and takes no lock.
    pub fn gather(&self, first: &mut Pass, from: &mut Session)
        requires own { BelongsTo self.now first.old × BelongsTo self.now from.old.pass }
        requires numbers { HaveOneNumber 0 first.old }
        ensures session { from.new ≡ from.old }
        ensures told { Meets 0 first.old first.new (seen_of from.old.pass) }
    {
        let notes = self.notes(&mut from.pass);
        self.meet_all(first, notes);
    }

    /// Shows a session what is in the notes, also after the system has ended. It allocates nothing and takes no lock.
    pub fn spread(&self, to: &mut Session, notes: &mut Notes)
        requires own { BelongsTo self.now to.old.pass × AreOf self.now notes.old }
        ensures notes { notes.new ≡ notes.old }
        ensures same { SameSession to.old to.new }
        ensures held { to.new.held ≡ to.old.held }
        ensures told { Meets to.old.number to.old.pass to.new.pass (noted notes.old) }
        ensures operations { Sees (seen_of to.old.pass) (noted notes.old)
            → to.new.pass.operations.seen ≡ notes.old.operations.seen }
    {
        let notes = self.notes_again(notes);
        self.meet_all(&mut to.pass, notes);
    }

    /// Shows a session what another one has seen. It allocates nothing and takes no lock.
    pub fn tell(&self, to: &mut Session, from: &mut Session)
        requires own { BelongsTo self.now to.old.pass × BelongsTo self.now from.old.pass }
        ensures from { from.new ≡ from.old }
        ensures same { SameSession to.old to.new }
        ensures held { to.new.held ≡ to.old.held }
        ensures told { Meets to.old.number to.old.pass to.new.pass (seen_of from.old.pass) }
    {
        let notes = self.notes(&mut from.pass);
        self.meet_all(&mut to.pass, notes);
    }
}
