use crate::fault::PhaseFault;
use facet_disk::Disk;
use facet_engine::EndedSystem;

/// How phases ended: whether all of them were carried out and handed over; and what remains of the system.
#[derive(Drop)]
pub struct RanToEnd<D: Disk> {
    /// Whether all phases were given, carried out and handed over.
    pub result: Result<(), PhaseFault>,
    /// What remains of the system.
    pub ended: EndedSystem<D>,
}
