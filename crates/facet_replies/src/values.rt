ghost use Rattle.std.specs.Prelude.{◌≡◌, IfOk, map};
ghost use Rattle.serde_json.specs.Data.{Data};
ghost use Rattle.serde_json.specs.View.{view};
ghost use Rattle.facet_replies.specs.ReplyLines.{list_data};

use facet_names::NoMemory;
use serde_json::Value;
use std::alloc::Global;

/// What is written as a JSON value.
pub trait ToValue {
    /// The plain data of what is written.
    ghost Plain: { Type 0 };

    ghost plain: { Self → Plain };

    /// The JSON value of plain data.
    ghost json: { Plain → Data };

    /// Returns the JSON value. Errors: out of memory.
    fn to_value(&self, alloc: Global) -> Result<Value, NoMemory>
        ensures { IfOk result (λ v. view v ≡ json (plain self.now)) };
}

impl ToValue for u32 {
    ghost use Rattle.std.specs.Prelude.{ℕ};
    ghost use Rattle.facet_replies.specs.ReplyLines.{whole_data};

    ghost Plain = { ℕ };

    ghost plain = { λ n. n };

    ghost json = { whole_data };

    fn to_value(&self, _alloc: Global) -> Result<Value, NoMemory> {
        Ok(Value::from(*self))
    }
}

/// Returns the array of these values, in order.
///
/// Errors: out of memory.
pub fn list_value<T: ToValue>(alloc: Global, items: &[T]) -> Result<Value, NoMemory>
    ensures { IfOk result (λ v. view v ≡ list_data T.json (map T.plain items.now)) }
{
    let mut list = Vec::new(alloc);
    for item in items {
        let value = item.to_value(alloc)?;
        list.push(value)?;
    }
    Ok(Value::Array(list))
}
