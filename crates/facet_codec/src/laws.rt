//! Laws of reading and spelling, for proofs of other crates. Each call does nothing: its contract is the law for one
//! kind of value. What a successful read took is the spelling of its value, and a spelling is read as its value
//! whatever follows it.

ghost use Rattle.std.specs.Prelude.{ℕ, ◌<◌, ◌^◌};
ghost use Rattle.facet_codec.specs.Spelling.{one_byte, be32, be64, vint, text};
ghost use Rattle.facet_codec.specs.Reading.{u8_at, u32_at, u64_at, vint_at, bytes_at, text_at};
ghost use Rattle.std.specs.List.{flat_map};
ghost use Rattle.facet_codec.specs.Lists.{list_at, AreSoMany};
ghost use Rattle.facet_codec.specs.Laws.{IsSpelled, ReadsBack, IsBelow, HasLength, IsText};

/// States the law of one byte.
pub fn of_u8()
    ensures spelled { IsSpelled u8_at one_byte (IsBelow 256) }
    ensures read_back { ReadsBack u8_at one_byte (IsBelow 256) }
{}

/// States the law of four bytes.
pub fn of_u32()
    ensures spelled { IsSpelled u32_at be32 (IsBelow (2 ^ 32)) }
    ensures read_back { ReadsBack u32_at be32 (IsBelow (2 ^ 32)) }
{}

/// States the law of eight bytes.
pub fn of_u64()
    ensures spelled { IsSpelled u64_at be64 (IsBelow (2 ^ 64)) }
    ensures read_back { ReadsBack u64_at be64 (IsBelow (2 ^ 64)) }
{}

/// States the law of vInts.
pub fn of_vint()
    ensures spelled { IsSpelled vint_at vint (IsBelow (2 ^ 32)) }
    ensures read_back { ReadsBack vint_at vint (IsBelow (2 ^ 32)) }
{}

/// States the law of plain bytes, of a length that the reader knows.
pub fn of_bytes()
    ensures spelled { (n : ℕ) → IsSpelled (bytes_at n) (λ bytes. bytes) (HasLength n) }
    ensures read_back { (n : ℕ) → ReadsBack (bytes_at n) (λ bytes. bytes) (HasLength n) }
{}

/// States the law of texts of at most `max` bytes.
pub fn of_text()
    ensures spelled { (max : ℕ) → IsSpelled (text_at max) text (IsText max) }
    ensures read_back { (max : ℕ) → max < 2 ^ 32 → ReadsBack (text_at max) text (IsText max) }
{}

/// States the law of lists of numbers of four bytes each.
pub fn of_u32_list()
    ensures spelled { (n : ℕ) → IsSpelled (list_at u32_at n) (flat_map be32) (AreSoMany (IsBelow (2 ^ 32)) n) }
    ensures read_back { (n : ℕ) → ReadsBack (list_at u32_at n) (flat_map be32) (AreSoMany (IsBelow (2 ^ 32)) n) }
{}
