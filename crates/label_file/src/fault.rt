ghost use Rattle.std.specs.Prelude.{◌≡◌};

use facet_codec::CodecFault;
use facet_names::NoMemory;

/// Why labels were not read.
#[derive(Clone, Copy, Debug, PartialEq, Eq)]
pub enum LabelsFault {
    /// The bytes are not a taxonomy segment of the expected labels. `at` is the place of the first fault in reading
    /// from left to right, in bytes from 0.
    Malformed { at: u64 },
    /// Out of memory.
    NoMemory,
}

impl From<CodecFault> for LabelsFault {
    ghost use Rattle.facet_codec.specs.Faults.{fault_at};
    ghost use Rattle.label_file.specs.declared.fault.LabelsFault.TheVariants.{Malformed};

    ghost from_gives = { λ e f. f ≡ Malformed (fault_at e) };

    fn from(fault: CodecFault) -> LabelsFault {
        LabelsFault::Malformed { at: fault.at() }
    }
}

impl From<NoMemory> for LabelsFault {
    ghost use Rattle.label_file.specs.declared.fault.LabelsFault.TheVariants.{NoMemory as Memory};

    ghost from_gives = { λ _ f. f ≡ Memory };

    fn from(_error: NoMemory) -> LabelsFault {
        LabelsFault::NoMemory
    }
}
