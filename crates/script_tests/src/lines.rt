use facet_replies::{Refusal, Reply, write_reply};
use facet_words::{ScriptFault, write_fault};
use std::alloc::Global;
use std::test::Fail;

// Returns whether this is the line of a reply of session 1 to line 4.
fn has_line(alloc: Global, reply: &Reply, expected: &str) -> Result<bool, Fail> {
    let mut out = Vec::new(alloc);
    write_reply(alloc, &mut out, 1, 4, reply)?;
    let mut line = String::from_str(alloc, expected)?;
    line.push('\n')?;
    Ok(out.as_slice() == line.as_str().as_bytes())
}

static REFUSALS: [(Refusal, &str); 14] = [
    (
        Refusal::NoComponent { facet: 0 },
        r#"{"facet":0,"line":4,"refused":"no_component","s":1}"#,
    ),
    (
        Refusal::NotHierarchical { facet: 0, len: 2 },
        r#"{"facet":0,"len":2,"line":4,"refused":"not_hierarchical","s":1}"#,
    ),
    (
        Refusal::NotMultiValued { facet: 1 },
        r#"{"facet":1,"line":4,"refused":"not_multi_valued","s":1}"#,
    ),
    (
        Refusal::LabelsFull { size: 3 },
        r#"{"line":4,"refused":"labels_full","s":1,"size":3}"#,
    ),
    (
        Refusal::DocsFull { count: 1 },
        r#"{"count":1,"line":4,"refused":"docs_full","s":1}"#,
    ),
    (Refusal::NotHeld, r#"{"line":4,"refused":"not_held","s":1}"#),
    (
        Refusal::HeldAlready,
        r#"{"line":4,"refused":"held_already","s":1}"#,
    ),
    (
        Refusal::TopZero { ask: 0 },
        r#"{"ask":0,"line":4,"refused":"top_zero","s":1}"#,
    ),
    (
        Refusal::DimValueNotKept { ask: 0 },
        r#"{"ask":0,"line":4,"refused":"dim_value_not_kept","s":1}"#,
    ),
    (
        Refusal::NoSuchDocument { count: 5 },
        r#"{"count":5,"line":4,"refused":"no_such_document","s":1}"#,
    ),
    (
        Refusal::Disk { count: 1 },
        r#"{"count":1,"line":4,"refused":"disk","s":1}"#,
    ),
    (
        Refusal::Closed { count: 2 },
        r#"{"count":2,"line":4,"refused":"closed","s":1}"#,
    ),
    (
        Refusal::NumbersSpent {
            number: 9_223_372_036_854_775_811,
        },
        r#"{"line":4,"number":9223372036854775811,"refused":"numbers_spent","s":1}"#,
    ),
    (
        Refusal::NoMemory,
        r#"{"line":4,"refused":"no_memory","s":1}"#,
    ),
];

fn refusals() -> &'static [(Refusal, &'static str)] {
    &REFUSALS
}

// Returns whether these are the lines of faults of scripts.
fn are_told(alloc: Global) -> Result<bool, Fail> {
    let mut out = Vec::new(alloc);
    write_fault(alloc, &mut out, ScriptFault::NotJson { line: 7 })?;
    write_fault(alloc, &mut out, ScriptFault::BadShape { line: 1 })?;
    write_fault(
        alloc,
        &mut out,
        ScriptFault::BadSession { line: 67_108_864 },
    )?;
    write_fault(alloc, &mut out, ScriptFault::NoConfigFirst)?;
    write_fault(alloc, &mut out, ScriptFault::NoMemory)?;
    let expected =
        b"{\"fault\":\"not_json\",\"line\":7}\n{\"fault\":\"bad_shape\",\"line\":1}\n{\"fault\":\"bad_session\",\"line\":67108864}\n{\"fault\":\"no_config_first\"}\n{\"fault\":\"no_memory\"}\n";
    Ok(out.as_slice() == expected.as_slice())
}

/// Returns whether a merge, refusals and faults have their lines.
pub fn are_written(alloc: Global) -> Result<bool, Fail> {
    if !has_line(alloc, &Reply::Merged, r#"{"line":4,"merged":true,"s":1}"#)? {
        return Ok(false);
    }
    for (refusal, expected) in refusals() {
        if !has_line(alloc, &Reply::Refused(*refusal), *expected)? {
            return Ok(false);
        }
    }
    are_told(alloc)
}
