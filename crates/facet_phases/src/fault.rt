/// Why a phase was the last one that ran.
#[derive(Clone, Copy, Debug, PartialEq, Eq)]
pub enum PhaseFault {
    /// The phases could not be read any further. The replies of all phases before were handed over.
    Read,
    /// What was kept of the last phase could not be handed over. For lines, only a prefix was written.
    Write,
    /// Out of memory for the sessions, for the commands of a phase, or to keep their replies. Nothing of that phase was
    /// handed over.
    NoMemory,
}
