ghost use Rattle.std.specs.Prelude.{◌≡◌, ◌++◌, IfOk, OnOk, OnErr, map};
ghost use Rattle.serde_json.specs.View.{view, members_view};
ghost use Rattle.facet_replies.specs.NamedFaults.{detail_data, detail_field, named_fault_data, named_fault_line};
ghost use Rattle.facet_replies.specs.ReplyLines.{with_fields};

use crate::refusals::put_text;
use crate::writing::to_line;
use facet_names::NoMemory;
use serde_json::{Map, Value, put};
use std::alloc::{AllocError, Global};

/// A value in the line of a fault.
#[derive(Clone, Copy, Debug)]
pub enum Detail<'a> {
    /// A text. It is written as a JSON string.
    Text(&'a str),
    /// A number. It is written in decimal.
    Number(u64),
    /// A digest. It is written as 64 lower-case hexadecimal digits.
    Digest([u8; 32]),
}

fn detail_value(alloc: Global, detail: Detail) -> Result<Value, AllocError>
    ensures { IfOk result (λ v. view v ≡ detail_data detail.entry) }
{
    match detail {
        Detail::Text(text) => Value::try_from_str(alloc, text),
        Detail::Number(number) => Ok(Value::from(number)),
        Detail::Digest(digest) => Ok(Value::String(hex::encode(alloc, digest)?)),
    }
}

fn put_details(
    alloc: Global,
    fields: &mut Map<String, Value>,
    details: &[(&str, Detail)],
) -> Result<(), AllocError>
    ensures { OnOk result (members_view fields.new.entries
        ≡ with_fields (members_view fields.old.entries) (map detail_field details.now)) }
{
    for (key, detail) in details {
        let value = detail_value(alloc, *detail)?;
        put(fields, alloc, *key, value)?;
    }
    Ok(())
}

#[tactic(auto, unfolding(crate::specs::NamedFaults::named_fault_data))]
fn named_fault_value(
    alloc: Global,
    name: &str,
    details: &[(&str, Detail)],
) -> Result<Value, NoMemory>
    ensures { IfOk result (λ v. view v ≡ named_fault_data name.now (map detail_field details.now)) }
{
    let mut fields = Map::new(alloc);
    put_text(alloc, &mut fields, "fault", name)?;
    put_details(alloc, &mut fields, details)?;
    Ok(Value::Object(fields))
}

/// Appends the line of a fault, with its name and details, as a line of JSON in the form of a reply.
///
/// Errors: out of memory. Then nothing is appended.
#[tactic(auto, unfolding(crate::specs::NamedFaults::named_fault_line))]
pub fn write_named_fault(
    alloc: Global,
    out: &mut Vec<u8>,
    name: &str,
    details: &[(&str, Detail)],
) -> Result<(), NoMemory>
    ensures ok { OnOk result (out.new.items
        ≡ out.old.items ++ named_fault_line name.now (map detail_field details.now)) }
    ensures err { OnErr result (out.new.items ≡ out.old.items) }
{
    let value = named_fault_value(alloc, name, details)?;
    let text = to_line(alloc, &value)?;
    out.extend_from_slice(text.as_bytes())?;
    Ok(())
}
