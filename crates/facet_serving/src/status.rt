ghost use Rattle.std.specs.Prelude.{◌≡◌};
ghost use Rattle.facet_serving.specs.Statuses.{exit_code, fault_status, status_line};

use facet_disk::Disk;
use facet_engine::Trace;
use store_opening::OpenFault;

/// How an invocation ended.
#[derive(Clone, Copy, Debug, PartialEq, Eq)]
pub enum Status {
    /// Every command was answered, and all replies and the last line were written.
    Done,
    /// Usage error: the arguments are a directory and the options `--sessions` and `--generate`.
    BadWords,
    /// A read failed.
    ReadFault,
    /// A write of replies or of the last line failed.
    WriteFault,
    /// The input is not a script.
    BadScript,
    /// A call of the disk failed while the store was opened.
    DiskFault,
    /// The files of the disk are not a store.
    BadStore,
    /// Out of memory.
    NoMemory,
    /// The input has more than 67,108,864 bytes.
    TooLong,
    /// A dimension is declared with other flags than in the store.
    OtherConfig,
}

impl Status {
    /// Returns the status for a store that was not opened.
    pub fn of(fault: &OpenFault) -> Status
        ensures { result ≡ fault_status fault.now }
    {
        match fault {
            OpenFault::Disk => Status::DiskFault,
            OpenFault::NoMemory => Status::NoMemory,
            OpenFault::OtherConfig { .. } => Status::OtherConfig,
            OpenFault::Missing { .. }
            | OpenFault::Damaged { .. }
            | OpenFault::Malformed { .. }
            | OpenFault::Uncovered { .. }
            | OpenFault::NumbersSpent { .. } => Status::BadStore,
        }
    }

    /// Returns the exit status of the program.
    pub fn code(self) -> u8
        ensures { result ≡ exit_code self }
    {
        match self {
            Status::Done => 0,
            Status::BadWords => 2,
            Status::ReadFault => 3,
            Status::WriteFault => 4,
            Status::BadScript => 5,
            Status::DiskFault => 6,
            Status::BadStore => 7,
            Status::NoMemory => 8,
            Status::TooLong => 9,
            Status::OtherConfig => 10,
        }
    }

    /// Returns the line that reports the status. It is empty at `Done` and `WriteFault`, and at `BadScript`, `BadStore`
    /// and `OtherConfig`, which have a line with details.
    pub fn line(self) -> &'static [u8]
        ensures { result.now ≡ status_line self }
    {
        match self {
            Status::Done => b"",
            Status::BadWords => b"{\"fault\":\"bad_words\"}\n",
            Status::ReadFault => b"{\"fault\":\"read_fault\"}\n",
            Status::WriteFault => b"",
            Status::BadScript => b"",
            Status::DiskFault => b"{\"fault\":\"disk_fault\"}\n",
            Status::BadStore => b"",
            Status::NoMemory => b"{\"fault\":\"no_memory\"}\n",
            Status::TooLong => b"{\"fault\":\"too_long\"}\n",
            Status::OtherConfig => b"",
        }
    }
}

/// What remains of an invocation: how it ended, and the disk. If its sessions began, the trace has all labels, and the
/// number of the session of each operation.
#[derive(Drop)]
pub struct Ended<D: Disk> {
    /// How the invocation ended.
    pub status: Status,
    /// The disk, which can be opened again.
    pub disk: D,
    /// What the sessions added. `None` if no session began.
    pub trace: Option<Trace>,
}
