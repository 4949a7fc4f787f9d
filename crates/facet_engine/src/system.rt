ghost use Rattle.std.specs.Prelude.{◌≡◌};

use chronicle::Chronicle;
use commit_turns::{CommitTurn, Start};
use facet_config::FacetsConfig;
use facet_disk::Disk;
use pair_manager::Manager;
use std::alloc::Global;
use std::marker::Model;
use std::sync::Arc;
use taxo_cache::Name;

/// An open store that sessions on any threads share: the chronicles of labels, operations, pairs and commits, and the
/// config of its documents.
#[derive(Drop)]
pub struct System<D: Disk, N: Name + Start> {
    pub(crate) alloc: Global,
    pub(crate) config: Arc<FacetsConfig>,
    pub(crate) manager: Manager<N>,
    pub(crate) commits: Chronicle<CommitTurn<D, N>>,
    pub(crate) opened: (u64, u32),
    pub(crate) auto_merge: bool,
}

impl<D: Disk, N: Name + Start> Model for System<D, N> {
    ghost use Rattle.std.specs.Arc.{arc_value};
    ghost use Rattle.facet_engine.specs.Systems.{Engine};

    ghost Value = { Engine };

    ghost view = { λ s. record {
      manager = s.manager;
      commits = s.commits;
      config = arc_value s.config;
      opened = s.opened;
    } };
}

impl<D: Disk, N: Name + Start> System<D, N> {
    /// Returns how many documents were opened, and how many labels with the root. It allocates nothing.
    pub fn opened(&self) -> (u64, u32)
        ensures { result ≡ self.now.opened }
    {
        self.opened
    }
}
