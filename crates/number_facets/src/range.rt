ghost use Rattle.std.specs.Prelude.{◌≡◌, ◌&&◌, ℤ, IfOk, IsTrue, int_le, int_lt, if◌then◌else◌};
ghost use Rattle.number_facets.specs.Bounds.{is_from, is_up_to, is_within};
ghost use Rattle.number_facets.specs.Numbers.{is_i64};
ghost use Rattle.number_facets.specs.Values.{contains};

use facet_names::NoMemory;
use std::alloc::Global;
use std::marker::Model;

/// The numbers from `min` to `max`, with a name. An open end is excluded. A range may be empty: if `min` is above
/// `max`, or if they are equal and an end is open. It corresponds to Lucene's `LongRange`.
#[derive(Debug, Drop)]
pub struct Range {
    name: String,
    min: i64,
    max: i64,
    min_open: bool,
    max_open: bool,
}

impl Model for Range {
    ghost use Rattle.std.specs.Prelude.{string_bytes};
    ghost use Rattle.number_facets.specs.Values as values;

    ghost Value = { values.Range };

    ghost view = { λ r. record {
      name = string_bytes r.name;
      min = r.min;
      max = r.max;
      min_open = r.min_open;
      max_open = r.max_open;
    } };
}

// Returns the least number that is not below an end, or that is above an open one.
fn least(min: i64, open_end: bool) -> Option<i64>
    ensures { (v : ℤ) → IsTrue (is_i64 v) → (if open_end then int_lt min v else int_le min v) ≡ is_from result v }
{
    if !open_end {
        return Some(min);
    }
    if min == i64::MAX {
        return None;
    }
    Some(min + 1)
}

// Returns the greatest number that is not above an end, or that is below an open one.
fn greatest(max: i64, open_end: bool) -> Option<i64>
    ensures { (v : ℤ) → IsTrue (is_i64 v) → (if open_end then int_lt v max else int_le v max) ≡ is_up_to result v }
{
    if !open_end {
        return Some(max);
    }
    if max == i64::MIN {
        return None;
    }
    Some(max - 1)
}

// Both ends, and two that have no number between them where one is missing.
fn between(first: Option<i64>, last: Option<i64>) -> (i64, i64)
    ensures { (v : ℤ) → is_within result v ≡ (is_from first v && is_up_to last v) }
{
    let Some(first) = first else {
        return (1, 0);
    };
    let Some(last) = last else {
        return (1, 0);
    };
    (first, last)
}

impl Range {
    /// Makes the range of these ends. It copies the name. Errors: out of memory.
    pub fn new(
        alloc: Global,
        name: &str,
        min: i64,
        max: i64,
        min_open: bool,
        max_open: bool,
    ) -> Result<Range, NoMemory>
        ensures { IfOk result (λ r. r ≡ record {
          name = name.now;
          min = min;
          max = max;
          min_open = min_open;
          max_open = max_open;
        }) }
    {
        let name = String::from_str(alloc, name)?;
        Ok(Range {
            name,
            min,
            max,
            min_open,
            max_open,
        })
    }

    /// Returns the name.
    pub fn name(&self) -> &str
        ensures { result.now ≡ self.now.name }
    {
        self.name.as_str()
    }

    /// Returns whether the range has a number.
    pub fn contains(&self, number: i64) -> bool
        ensures { result ≡ contains self.now number }
    {
        let above = if self.min_open {
            self.min < number
        } else {
            self.min <= number
        };
        let below = if self.max_open {
            number < self.max
        } else {
            number <= self.max
        };
        above && below
    }

    /// The least and the greatest number of the range. Where it has no number, the first is above the second.
    pub fn bounds(&self) -> (i64, i64)
        ensures { (v : ℤ) → IsTrue (is_i64 v) → contains self.now v ≡ is_within result v }
    {
        between(
            least(self.min, self.min_open),
            greatest(self.max, self.max_open),
        )
    }
}
