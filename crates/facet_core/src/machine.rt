ghost use Rattle.std.specs.Prelude.{◌≡◌, ◌<◌, ◌≤◌, [], ◌∷◌, length, map, IfOk, IfSome, OnOk, OnErr, option_map};
ghost use Rattle.std.specs.List.{list_all};
ghost use Rattle.facet_names.specs.Labels.{stands, above};
ghost use Rattle.facet_core.specs.Views.{pair, commit_view, kept_by};
ghost use Rattle.facet_model.specs.ChangeViews.{change_view};
ghost use Rattle.facet_model.specs.Histories.{labels_stand};
ghost use Rattle.facet_model.specs.Core.{empty_core, with_label, with_operation, with_index, with_labels_taken};
ghost use Rattle.facet_model.specs.Core.{with_publication, without_refresh, with_commit, without_commit};
ghost use Rattle.facet_model.specs.Core.{labels_of_commit, with_device, device_done, device_failed, with_crash};
ghost use Rattle.facet_model.specs.Core.{after_crash};
ghost use Rattle.facet_model.specs.CoreStates.{Valid};

use crate::parts::{
    Commit, Operation, Publication, RENAME_LABELS, RENAME_OPERATIONS, Refresh, SYNC_LABELS,
    SYNC_OPERATIONS,
};
use facet_model::Change;
use facet_names::{NoMemory, Path};
use std::alloc::Global;
use std::marker::Model;

/// The state of an index and of its disk, as far as commits and refreshes are concerned: the label list, the
/// operations, what was published, what was acknowledged, the refresh and the commit in progress, and for each
/// directory of the disk what it reads as and what a crash may leave.
///
/// The root of the labels is not stored, since it is always there.
#[derive(Debug, Drop)]
pub struct Core {
    labels: Vec<Path>,
    history: Vec<Operation>,
    published: Vec<Publication>,
    acknowledged: Vec<Publication>,
    refresh: Option<Refresh>,
    commit: Option<Commit>,
    tax_read: u64,
    tax_may: Vec<u64>,
    idx_read: Publication,
    idx_may: Vec<Publication>,
    closed: bool,
}

impl Model for Core {
    ghost use Rattle.std.specs.Prelude.{[], ◌∷◌, map, option_map};
    ghost use Rattle.facet_model.specs.Core.{State};
    ghost use Rattle.facet_core.specs.Views.{pair, operation_view, refresh_view, commit_view};
    ghost use Rattle.facet_core.specs.Rests.{IsAtRest};

    ghost Value = { State };

    ghost view = { λ c. record {
      labels = [] ∷ c.labels.items;
      history = map operation_view c.history.items;
      published = map pair c.published.items;
      acknowledged = map pair c.acknowledged.items;
      refresh = option_map refresh_view c.refresh;
      commit = option_map commit_view c.commit;
      tax_read = c.tax_read;
      tax_may = c.tax_may.items;
      idx_read = pair c.idx_read;
      idx_may = map pair c.idx_may.items;
      closed = c.closed;
    } };

    ghost invariant = { λ c. IsAtRest c.commit c.tax_may.items };
}

fn alone<T: Drop>(alloc: Global, entry: T) -> Result<Vec<T>, NoMemory>
    ensures { IfOk result (λ v. v.items ≡ entry ∷ []) }
{
    let mut list = Vec::new(alloc);
    list.push(entry)?;
    Ok(list)
}

fn is_among(paths: &[Path], path: &Path) -> bool
    ensures { result ≡ stands paths.now path.now }
{
    paths.iter().any(|label| path == label)
}

/// What a crash may leave: a number of labels, and the operations with the labels that they need.
#[derive(Clone, Copy, Debug)]
struct Kept {
    labels: u64,
    index: Publication,
}

impl Core {
    /// Returns a core with only the root and without operations. That state counts as published and acknowledged.
    /// Errors: out of memory.
    pub fn new(alloc: Global) -> Result<Core, NoMemory>
        ensures empty { IfOk result (λ c. c ≡ empty_core) }
        ensures valid { IfOk result Valid }
    {
        let start = Publication {
            operations: 0,
            labels: 1,
        };
        Ok(Core {
            labels: Vec::new(alloc),
            history: Vec::new(alloc),
            published: alone(alloc, start)?,
            acknowledged: alone(alloc, start)?,
            refresh: None,
            commit: None,
            tax_read: 1,
            tax_may: alone(alloc, 1)?,
            idx_read: start,
            idx_may: alone(alloc, start)?,
            closed: false,
        })
    }

    /// Returns the number of labels, with the root.
    pub fn labels(&self) -> u64
        ensures labels { result ≡ length self.now.labels }
        ensures rooted { 1 ≤ result }
    {
        self.labels.len() as u64 + 1
    }

    /// Returns the number of operations.
    pub fn operations(&self) -> u64
        ensures { result ≡ length self.now.history }
    {
        self.history.len() as u64
    }

    /// Returns what was published since the last crash, or since the beginning. After a crash it begins with the pair
    /// that was kept.
    pub fn publications(&self) -> &[Publication]
        ensures { map pair result.now ≡ self.now.published }
    {
        &self.published
    }

    #[tactic(auto, using(crate::proofs::Roots::under_root))]
    fn stands(&self, path: &Path) -> bool
        ensures { result ≡ stands self.now.labels path.now }
    {
        path.has_components();
        is_among(&self.labels, path)
    }

    #[tactic(auto, using(crate::proofs::Roots::root_above))]
    fn has_parent(&self, alloc: Global, path: &Path) -> Result<bool, NoMemory>
        ensures { IfOk result (λ b. b ≡ stands self.now.labels (above path.now)) }
    {
        match path.parent(alloc)? {
            Some(parent) => Ok(self.stands(&parent)),
            None => {
                // The parent is the root, which is always there.
                let _ = &self.labels;
                Ok(true)
            }
        }
    }

    fn stand(&self, paths: &[Path]) -> bool
        ensures { result ≡ list_all (stands self.now.labels) paths.now }
    {
        paths.iter().all(|path| self.stands(path))
    }

    pub(crate) fn add_label(&mut self, alloc: Global, path: &Path) -> Result<(), NoMemory>
        ensures ok { OnOk result (self.new ≡ with_label self.old path.now) }
        ensures err { OnErr result (self.new ≡ self.old) }
    {
        if !self.stands(path) && self.has_parent(alloc, path)? {
            let path = path.dup(alloc)?;
            self.labels.push(path)?;
        }
        Ok(())
    }

    // Each label of the change's document, if it has one, is there.
    fn stands_for(&self, change: &Change) -> bool
        ensures { result ≡ labels_stand self.now.labels (change_view change.now) }
    {
        match change.document() {
            Some(doc) => self.stand(doc.facets()),
            None => true,
        }
    }

    pub(crate) fn add_operation(
        &mut self,
        alloc: Global,
        session: u32,
        change: &Change,
    ) -> Result<(), NoMemory>
        ensures ok { OnOk result (self.new ≡ with_operation self.old session (change_view change.now)) }
        ensures err { OnErr result (self.new ≡ self.old) }
    {
        if self.stands_for(change) {
            let change = change.dup(alloc)?;
            self.history.push(Operation { session, change })?;
        }
        Ok(())
    }

    pub(crate) fn take_index(&mut self, session: u32)
        ensures { self.new ≡ with_index self.old session self.old.refresh }
    {
        if self.refresh.is_none() {
            let operations = self.operations();
            self.refresh = Some(Refresh {
                session,
                operations,
                labels: None,
            });
        }
    }

    pub(crate) fn take_labels(&mut self, session: u32)
        ensures { self.new ≡ with_labels_taken self.old session self.old.refresh }
    {
        let labels = self.labels();
        if let Some(refresh) = self.refresh {
            if refresh.session == session && refresh.labels.is_none() {
                self.refresh = Some(Refresh {
                    labels: Some(labels),
                    ..refresh
                });
            }
        }
    }

    pub(crate) fn publish(&mut self, session: u32) -> Result<(), NoMemory>
        ensures ok { OnOk result (self.new ≡ with_publication self.old session self.old.refresh) }
        ensures err { OnErr result (self.new ≡ self.old) }
    {
        if let Some(refresh) = self.refresh {
            if refresh.session == session {
                if let Some(labels) = refresh.labels {
                    let operations = refresh.operations;
                    self.published.push(Publication { operations, labels })?;
                    self.refresh = None;
                }
            }
        }
        Ok(())
    }

    pub(crate) fn drop_refresh(&mut self, session: u32)
        ensures { self.new ≡ without_refresh self.old session self.old.refresh }
    {
        if let Some(refresh) = self.refresh {
            if refresh.session == session {
                self.refresh = None;
            }
        }
    }

    pub(crate) fn begin_commit(&mut self)
        ensures { self.new ≡ with_commit self.old }
    {
        let operations = self.operations();
        if self.commit.is_none() && !self.closed {
            self.commit = Some(Commit {
                operations,
                labels: None,
                calls: 0,
            });
        }
    }

    pub(crate) fn drop_commit(&mut self)
        ensures { self.new ≡ without_commit self.old self.old.commit }
    {
        if let Some(commit) = self.commit {
            if commit.calls == 0 {
                self.commit = None;
            }
        }
    }

    /// Returns the numbers of the commit's next disk call. The first call takes the number of labels.
    fn pair_of(&self, commit: Commit) -> Publication
        requires { IfSome commit.labels (λ m. 1 ≤ m) }
        ensures operations { result.operations ≡ commit.operations }
        ensures labels { result.labels ≡ labels_of_commit self.now (commit_view commit) }
        ensures rooted { 1 ≤ result.labels }
    {
        let labels = match commit.labels {
            Some(labels) => labels,
            None => self.labels(),
        };
        Publication {
            operations: commit.operations,
            labels,
        }
    }

    fn device_done(&mut self, alloc: Global, call: u8, of: Publication) -> Result<(), NoMemory>
        requires last { call ≤ 12 }
        requires rooted { 1 ≤ of.labels }
        ensures ok { OnOk result (self.new ≡ device_done self.old call of.operations of.labels) }
        ensures err { OnErr result (self.new ≡ self.old) }
    {
        let going = Some(Commit {
            operations: of.operations,
            labels: Some(of.labels),
            calls: call,
        });
        match call {
            RENAME_LABELS => {
                self.tax_may.push(of.labels)?;
                self.tax_read = of.labels;
                self.commit = going;
            }
            SYNC_LABELS => {
                self.tax_may = alone(alloc, of.labels)?;
                self.commit = going;
            }
            RENAME_OPERATIONS => {
                self.idx_may.push(of)?;
                self.idx_read = of;
                self.commit = going;
            }
            SYNC_OPERATIONS => {
                let only = alone(alloc, of)?;
                self.acknowledged.push(of)?;
                self.idx_may = only;
                self.commit = None;
            }
            _ => self.commit = going,
        }
        Ok(())
    }

    fn device_failed(&mut self, call: u8, of: Publication) -> Result<(), NoMemory>
        requires rooted { 1 ≤ of.labels }
        ensures ok { OnOk result (self.new ≡ device_failed self.old call of.operations of.labels) }
        ensures err { OnErr result (self.new ≡ self.old) }
    {
        match call {
            RENAME_LABELS => self.tax_may.push(of.labels)?,
            RENAME_OPERATIONS => self.idx_may.push(of)?,
            _ => {}
        }
        self.commit = None;
        self.closed = true;
        Ok(())
    }

    pub(crate) fn device(&mut self, alloc: Global, done: bool) -> Result<(), NoMemory>
        ensures ok { OnOk result (self.new ≡ with_device self.old done self.old.commit) }
        ensures err { OnErr result (self.new ≡ self.old) }
    {
        let Some(commit) = self.commit else {
            return Ok(());
        };
        let call = commit.calls + 1;
        let of = self.pair_of(commit);
        if done {
            self.device_done(alloc, call, of)
        } else {
            self.device_failed(call, of)
        }
    }

    fn kept(&self, keep: u32) -> Option<Kept>
        ensures is { option_map (λ k. (k.labels, pair k.index)) result ≡ kept_by self.now keep }
        ensures rooted { IfSome result (λ k. 1 ≤ k.labels) }
    {
        let indexes = self.idx_may.len();
        if keep as u128 >= self.tax_may.len() as u128 * indexes as u128 {
            return None;
        }
        let at = keep as usize;
        Some(Kept {
            labels: self.tax_may[at / indexes],
            index: self.idx_may[at % indexes],
        })
    }

    fn reopen(&mut self, alloc: Global, kept: Kept) -> Result<(), NoMemory>
        requires { 1 ≤ kept.labels }
        ensures ok { OnOk result (self.new ≡ after_crash self.old kept.labels (pair kept.index)) }
        ensures err { OnErr result (self.new ≡ self.old) }
    {
        let Kept { labels, index } = kept;
        let operations = index.operations;
        let published = alone(alloc, Publication { operations, labels })?;
        let tax_may = alone(alloc, labels)?;
        let idx_may = alone(alloc, index)?;
        self.labels.truncate((labels - 1) as usize);
        self.history.truncate(operations as usize);
        self.published = published;
        self.refresh = None;
        self.commit = None;
        self.tax_read = labels;
        self.tax_may = tax_may;
        self.idx_read = index;
        self.idx_may = idx_may;
        self.closed = false;
        Ok(())
    }

    pub(crate) fn crash(&mut self, alloc: Global, keep: u32) -> Result<(), NoMemory>
        ensures ok { OnOk result (self.new ≡ with_crash self.old keep) }
        ensures err { OnErr result (self.new ≡ self.old) }
    {
        match self.kept(keep) {
            Some(kept) => self.reopen(alloc, kept),
            None => Ok(()),
        }
    }
}
