ghost use Rattle.std.specs.Prelude.{◌≡◌};
ghost use Rattle.seg_decoding.specs.Opening.{first_difference};

/// Returns the first place where two lists of bytes differ, or `None`. If one is longer, that is its first byte more.
pub(crate) fn first_difference(left: &[u8], right: &[u8]) -> Option<u64>
    ensures { result ≡ first_difference left.now right.now }
{
    let common = left.len().min(right.len());
    let front = &left[..common];
    for (at, byte) in front.iter().enumerate() {
        if *byte != right[at] {
            return Some(at as u64);
        }
    }
    if left.len() == right.len() {
        None
    } else {
        Some(common as u64)
    }
}
