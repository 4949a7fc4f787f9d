//! Counting the records of one segment.
ghost use Rattle.std.specs.Prelude.{◌≡◌, ◌+◌, ◌<◌, ◌≤◌, ◌∷◌, [], length};
ghost use Rattle.seg_drill.specs.Counting.{AreCountable, AreWithin, IsGrown, IsSetWithin, lists_at};

use facet_counts::Counter;
use place_bits::BitPlaces;
use seg_file::Segment;
use seg_postings::Places;

/// Counts the record at a place. It takes time proportional to the record's ordinals, and allocates nothing.
pub fn count_record(segment: &Segment, place: u32, counter: &mut Counter<'_>)
    requires countable { AreCountable counter.old.config counter.old.labels segment.now }
    requires within { place < length segment.now.records }
    requires room { counter.old.added < 1000000 }
    ensures { IsGrown counter.old counter.new (lists_at segment.now (place ∷ [])) }
{
    counter.add_doc(segment.counted(place));
}

/// Counts the records at the places one by one, and returns how many they are. It allocates nothing.
pub fn count_places<P: Places>(segment: &Segment, places: &mut P, counter: &mut Counter<'_>) -> u64
    requires countable { AreCountable counter.old.config counter.old.labels segment.now }
    requires within { AreWithin segment.now (P.left places.old) }
    requires room { counter.old.added + length (P.left places.old) ≤ 1000000 }
    ensures grown { IsGrown counter.old counter.new (lists_at segment.now (P.left places.old)) }
    ensures number { result ≡ length (P.left places.old) }
    ensures end { P.left places.new ≡ [] }
{
    let mut number = 0;
    while let Some(place) = places.next() {
        count_record(segment, place, counter);
        number += 1;
    }
    number
}

/// Counts the records at the places that are left of a set, and returns how many they are. Many are counted with the
/// bit maps of the segment's column, and few one by one. It allocates nothing.
pub fn count_marked(segment: &Segment, places: BitPlaces, counter: &mut Counter<'_>) -> u64
    requires countable { AreCountable counter.old.config counter.old.labels segment.now }
    requires within { IsSetWithin segment.now places }
    requires room { counter.old.added + length places.places ≤ 1000000 }
    ensures grown { IsGrown counter.old counter.new (lists_at segment.now places.places) }
    ensures number { result ≡ length places.places }
{
    let rest = places.into_rest();
    let number = rest.len();
    let column = segment.column();
    if column.is_quick_for(number) {
        counter.add_column(column, &rest);
        return number;
    }
    let mut places = rest.into_places();
    count_places(segment, &mut places, counter)
}
