ghost use Rattle.std.specs.Prelude.{◌≡◌, ◌++◌, Some, IfOk, OnOk, OnErr, false, string_bytes, map};
ghost use Rattle.serde_json.specs.View.{view, members_view};
ghost use Rattle.serde_json.specs.Written.{has_float};
ghost use Rattle.facet_model.specs.ResultViews.{answer_view};
ghost use Rattle.number_facets.specs.SumViews.{sum_view};
ghost use Rattle.facet_replies.specs.Replies.{placed, found, shown, stats, ranged, summed};
ghost use Rattle.facet_replies.specs.ReplyLines.{with_fields, whole_data, list_data, content_fields, hit_data};
ghost use Rattle.facet_replies.specs.ReplyLines.{document_fields, range_data, sum_data};
ghost use Rattle.facet_replies.specs.ReplyLines.{reply_fields as fields_of_reply, reply_data, json_line, reply_line};
ghost use Rattle.facet_replies.specs.ReplyViews.{content_view, hit_view, range_view, reply_view};

use crate::answers::{answers_value, paths_value};
use crate::refusals::{put_refusal, put_text};
use crate::reply::{Content, HitLine, RangeLine, Reply};
use crate::values::{ToValue, list_value};
use facet_model::{Document, FacetAnswer};
use facet_names::NoMemory;
use number_facets::Sum;
use serde_json::{Map, Value, json, put};
use std::alloc::{AllocError, Global};
use std::fmt::Write;

fn put_content(
    alloc: Global,
    fields: &mut Map<String, Value>,
    content: &Content,
) -> Result<(), NoMemory>
    ensures { OnOk result (members_view fields.new.entries ≡ with_fields (members_view fields.old.entries)
        (content_fields (Some (content_view content.now)))) }
{
    put(
        fields,
        alloc,
        "labels",
        paths_value(alloc, &content.labels)?,
    )?;
    put_text(alloc, fields, "text", &content.text)?;
    Ok(())
}

#[tactic(auto, unfolding(crate::specs::ReplyLines::hit_data))]
fn hit_value(alloc: Global, hit: &HitLine) -> Result<Value, NoMemory>
    ensures { IfOk result (λ v. view v ≡ hit_data (hit_view hit.now)) }
{
    let mut fields = Map::new(alloc);
    put(&mut fields, alloc, "at", Value::from(hit.at))?;
    put_text(alloc, &mut fields, "id", hit.id.text())?;
    if let Some(content) = &hit.content {
        put_content(alloc, &mut fields, content)?;
    }
    Ok(Value::Object(fields))
}

impl ToValue for HitLine {
    ghost use Rattle.facet_replies.specs.Replies.{Hit};
    ghost use Rattle.facet_replies.specs.ReplyLines.{hit_data};
    ghost use Rattle.facet_replies.specs.ReplyViews.{hit_view};

    ghost Plain = { Hit };

    ghost plain = { hit_view };

    ghost json = { hit_data };

    fn to_value(&self, alloc: Global) -> Result<Value, NoMemory> {
        hit_value(alloc, self)
    }
}

fn hits_value(alloc: Global, hits: &[HitLine]) -> Result<Value, NoMemory>
    ensures { IfOk result (λ v. view v ≡ list_data hit_data (map hit_view hits.now)) }
{
    list_value(alloc, hits)
}

fn ordinals_value(alloc: Global, ordinals: &[u32]) -> Result<Value, NoMemory>
    ensures { IfOk result (λ v. view v ≡ list_data whole_data ordinals.now) }
{
    list_value(alloc, ordinals)
}

fn put_found(
    alloc: Global,
    fields: &mut Map<String, Value>,
    n: u64,
    hit_count: u64,
    hits: &[HitLine],
    results: &[FacetAnswer],
) -> Result<(), NoMemory>
    ensures { OnOk result (members_view fields.new.entries ≡ with_fields (members_view fields.old.entries)
        (fields_of_reply (found (record {
          operations = n;
          hit_count = hit_count;
          hits = map hit_view hits.now;
          answers = map answer_view results.now;
        })))) }
{
    put(fields, alloc, "n", Value::from(n))?;
    put(fields, alloc, "hit_count", Value::from(hit_count))?;
    put(fields, alloc, "hits", hits_value(alloc, hits)?)?;
    put(fields, alloc, "results", answers_value(alloc, results)?)?;
    Ok(())
}

fn put_document(
    alloc: Global,
    fields: &mut Map<String, Value>,
    doc: &Document,
    ordinals: &[u32],
) -> Result<(), NoMemory>
    ensures { OnOk result (members_view fields.new.entries
        ≡ with_fields (members_view fields.old.entries) (document_fields doc.now ordinals.now)) }
{
    put_text(alloc, fields, "id", doc.id())?;
    put_text(alloc, fields, "text", doc.text())?;
    put(fields, alloc, "labels", paths_value(alloc, doc.facets())?)?;
    put(fields, alloc, "ordinals", ordinals_value(alloc, ordinals)?)?;
    Ok(())
}

fn put_shown(
    alloc: Global,
    fields: &mut Map<String, Value>,
    n: u64,
    at: u32,
    doc: &Document,
    ordinals: &[u32],
) -> Result<(), NoMemory>
    ensures { OnOk result (members_view fields.new.entries ≡ with_fields (members_view fields.old.entries)
        (fields_of_reply (shown (record { operations = n; at = at; doc = doc.now; ordinals = ordinals.now })))) }
{
    put(fields, alloc, "n", Value::from(n))?;
    put(fields, alloc, "at", Value::from(at))?;
    put_document(alloc, fields, doc, ordinals)
}

fn put_stats(
    alloc: Global,
    fields: &mut Map<String, Value>,
    n: u64,
    labels: u32,
    documents: u32,
) -> Result<(), AllocError>
    ensures { OnOk result (members_view fields.new.entries ≡ with_fields (members_view fields.old.entries)
        (fields_of_reply (stats (record { operations = n; labels = labels; documents = documents })))) }
{
    put(fields, alloc, "n", Value::from(n))?;
    put(fields, alloc, "labels", Value::from(labels))?;
    put(fields, alloc, "documents", Value::from(documents))
}

fn range_value(alloc: Global, range: &RangeLine) -> Result<Value, NoMemory>
    ensures { IfOk result (λ v. view v ≡ range_data (range_view range.now)) }
{
    Ok(json!(in alloc; [range.name.as_str(), range.count])?)
}

impl ToValue for RangeLine {
    ghost use Rattle.std.specs.Prelude.{ℕ, List};
    ghost use Rattle.facet_replies.specs.ReplyLines.{range_data};
    ghost use Rattle.facet_replies.specs.ReplyViews.{range_view};

    ghost Plain = { List ℕ × ℕ };

    ghost plain = { range_view };

    ghost json = { range_data };

    fn to_value(&self, alloc: Global) -> Result<Value, NoMemory> {
        range_value(alloc, self)
    }
}

fn ranges_value(alloc: Global, counts: &[RangeLine]) -> Result<Value, NoMemory>
    ensures { IfOk result (λ v. view v ≡ list_data range_data (map range_view counts.now)) }
{
    list_value(alloc, counts)
}

fn put_ranged(
    alloc: Global,
    fields: &mut Map<String, Value>,
    n: u64,
    counts: &[RangeLine],
    valued: u32,
) -> Result<(), NoMemory>
    ensures { OnOk result (members_view fields.new.entries ≡ with_fields (members_view fields.old.entries)
        (fields_of_reply (ranged (record { operations = n; counts = map range_view counts.now; valued = valued })))) }
{
    put(fields, alloc, "n", Value::from(n))?;
    put(fields, alloc, "ranges", ranges_value(alloc, counts)?)?;
    put(fields, alloc, "valued", Value::from(valued))?;
    Ok(())
}

fn sum_value(alloc: Global, sum: &Sum) -> Result<Value, NoMemory>
    ensures { IfOk result (λ v. view v ≡ sum_data (sum_view sum.now)) }
{
    Ok(json!(in alloc; [sum.part.text(), sum.value])?)
}

impl ToValue for Sum {
    ghost use Rattle.number_facets.specs.SumViews.{sum_view};
    ghost use Rattle.number_facets.specs.Values.{PartSum};
    ghost use Rattle.facet_replies.specs.ReplyLines.{sum_data};

    ghost Plain = { PartSum };

    ghost plain = { sum_view };

    ghost json = { sum_data };

    fn to_value(&self, alloc: Global) -> Result<Value, NoMemory> {
        sum_value(alloc, self)
    }
}

fn sums_value(alloc: Global, sums: &[Sum]) -> Result<Value, NoMemory>
    ensures { IfOk result (λ v. view v ≡ list_data sum_data (map sum_view sums.now)) }
{
    list_value(alloc, sums)
}

fn put_summed(
    alloc: Global,
    fields: &mut Map<String, Value>,
    n: u64,
    sums: &[Sum],
) -> Result<(), NoMemory>
    ensures { OnOk result (members_view fields.new.entries ≡ with_fields (members_view fields.old.entries)
        (fields_of_reply (summed (record { operations = n; sums = map sum_view sums.now })))) }
{
    put(fields, alloc, "n", Value::from(n))?;
    put(fields, alloc, "sums", sums_value(alloc, sums)?)?;
    Ok(())
}

// Stores the fields of a reply, except its line and its session.
fn put_reply(alloc: Global, fields: &mut Map<String, Value>, reply: &Reply) -> Result<(), NoMemory>
    ensures { OnOk result (members_view fields.new.entries
        ≡ with_fields (members_view fields.old.entries) (fields_of_reply (reply_view reply.now))) }
{
    match reply {
        Reply::Placed { at } => Ok(put(fields, alloc, "at", Value::from(*at))?),
        Reply::Number { n } => Ok(put(fields, alloc, "n", Value::from(*n))?),
        Reply::Found {
            n,
            hit_count,
            hits,
            results,
        } => put_found(alloc, fields, *n, *hit_count, hits, results),
        Reply::Shown {
            n,
            at,
            doc,
            ordinals,
        } => put_shown(alloc, fields, *n, *at, doc, ordinals),
        Reply::Stats {
            n,
            labels,
            documents,
        } => Ok(put_stats(alloc, fields, *n, *labels, *documents)?),
        Reply::Ranged { n, counts, valued } => put_ranged(alloc, fields, *n, counts, *valued),
        Reply::Summed { n, sums } => put_summed(alloc, fields, *n, sums),
        Reply::Merged => Ok(put(fields, alloc, "merged", Value::from(true))?),
        Reply::Refused(refusal) => Ok(put_refusal(alloc, fields, *refusal)?),
    }
}

#[tactic(auto, unfolding(crate::specs::ReplyLines::reply_data))]
fn reply_value(alloc: Global, session: u32, line: u64, reply: &Reply) -> Result<Value, NoMemory>
    ensures { IfOk result (λ v. view v ≡ reply_data session line (reply_view reply.now)) }
{
    let mut fields = Map::new(alloc);
    put(&mut fields, alloc, "line", Value::from(line))?;
    put(&mut fields, alloc, "s", Value::from(session))?;
    put_reply(alloc, &mut fields, reply)?;
    Ok(Value::Object(fields))
}

#[tactic(auto, unfolding(crate::specs::ReplyLines::json_line))]
pub(crate) fn to_line(alloc: Global, value: &Value) -> Result<String, NoMemory>
    requires { has_float (view value.now) ≡ false }
    ensures { IfOk result (λ s. string_bytes s ≡ json_line (view value.now)) }
{
    let mut text = value.to_string(alloc)?;
    text.push('\n')?;
    Ok(text)
}

// Returns the line of a document's place. There is one for each document, so it is written directly, without a JSON
// value.
#[tactic(auto, unfolding(crate::specs::ReplyLines::json_line, crate::specs::ReplyLines::reply_data))]
fn placed_line(alloc: Global, session: u32, line: u64, at: u64) -> Result<String, NoMemory>
    ensures { IfOk result (λ s. string_bytes s ≡ json_line (reply_data session line (placed at))) }
{
    let mut text = String::with_capacity(alloc, 64)?;
    write!(text, "{{\"at\":{at},\"line\":{line},\"s\":{session}}}\n")?;
    Ok(text)
}

#[tactic(auto, unfolding(crate::specs::ReplyLines::reply_line))]
fn reply_text(alloc: Global, session: u32, line: u64, reply: &Reply) -> Result<String, NoMemory>
    ensures { IfOk result (λ s. string_bytes s ≡ reply_line session line (reply_view reply.now)) }
{
    if let Reply::Placed { at } = reply {
        return placed_line(alloc, session, line, *at);
    }
    let value = reply_value(alloc, session, line, reply)?;
    to_line(alloc, &value)
}

/// Appends the line of a reply: compact JSON with its keys in byte order, and a line feed.
///
/// Errors: out of memory. Then nothing is appended.
pub fn write_reply(
    alloc: Global,
    out: &mut Vec<u8>,
    session: u32,
    line: u64,
    reply: &Reply,
) -> Result<(), NoMemory>
    ensures ok { OnOk result (out.new.items ≡ out.old.items ++ reply_line session line (reply_view reply.now)) }
    ensures err { OnErr result (out.new.items ≡ out.old.items) }
{
    let text = reply_text(alloc, session, line, reply)?;
    out.extend_from_slice(text.as_bytes())?;
    Ok(())
}
