//! The members of an object.
ghost use Rattle.std.specs.Prelude.{◌≡◌, ◌≤◌, IfSome, option_map, option_and_then};
ghost use Rattle.serde_json.specs.Find.{get};
ghost use Rattle.serde_json.specs.View.{view, items_view};
ghost use Rattle.plan_json.specs.Reading.{text_at, volume_at, array_at, number_at, number_or, within};

use serde_json::Value;

/// A member that is a text.
pub fn text_at<'a>(value: &'a Value, name: &str) -> Option<&'a str>
    ensures { option_map (λ text. text.now) result ≡ text_at name.now (view value.now) }
{
    value.get(name).and_then(Value::as_str)
}

/// The UUID of a member that is a volume.
pub fn volume_at<'a>(value: &'a Value, name: &str) -> Option<&'a str>
    ensures { option_map (λ uuid. uuid.now) result ≡ volume_at name.now (view value.now) }
{
    match value.get(name) {
        Some(volume) => text_at(volume, "uuid"),
        None => None,
    }
}

/// A member that is a list.
pub fn array_at<'a>(value: &'a Value, name: &str) -> Option<&'a [Value]>
    ensures { option_map (λ items. items_view items.now) result ≡ array_at name.now (view value.now) }
{
    match value.get(name).and_then(Value::as_array) {
        Some(items) => Some(items.as_slice()),
        None => None,
    }
}

/// A member that is a whole number below 2^64.
pub fn number_at(value: &Value, name: &str) -> Option<u64>
    ensures { result ≡ number_at name.now (view value.now) }
{
    value.get(name).and_then(Value::as_u64)
}

/// A member that is a number from `low` to `high`.
pub fn number_within(value: &Value, name: &str, low: u64, high: u64) -> Option<u64>
    ensures value { result ≡ option_and_then (within low high) (number_at name.now (view value.now)) }
    ensures low { IfSome result (λ n. low ≤ n) }
    ensures high { IfSome result (λ n. n ≤ high) }
{
    let number = number_at(value, name)?;
    if low <= number && number <= high {
        Some(number)
    } else {
        None
    }
}

/// A member that is a number up to `high`; where it is absent or 0, the default.
pub fn number_or(value: &Value, name: &str, default: u32, high: u32) -> Option<u32>
    requires some { 1 ≤ default }
    requires low { default ≤ high }
    ensures value { result ≡ number_or default high (get name.now (view value.now)) }
    ensures low { IfSome result (λ n. 1 ≤ n) }
    ensures high { IfSome result (λ n. n ≤ high) }
{
    let Some(member) = value.get(name) else {
        return Some(default);
    };
    let number = member.as_u64()?;
    if number > u64::from(high) {
        return None;
    }
    if number == 0 {
        return Some(default);
    }
    Some(number as u32)
}
