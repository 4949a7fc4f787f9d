use facet_disk::Disk;
use facet_engine::Trace;
use facet_serving::Status;
use live_io::Duplex;

/// What remains of a live process: how it ended, its input and output, and the disk. If its sessions began, the trace
/// has all labels, and the number of the session of each operation.
#[derive(Drop)]
pub struct LiveEnded<X: Duplex, D: Disk> {
    /// How the process ended.
    pub status: Status,
    /// The input and output.
    pub io: X,
    /// The disk, which can be opened again.
    pub disk: D,
    /// What the sessions added. `None` if no session began.
    pub trace: Option<Trace>,
}
