//! Looking into a value.
ghost use Rattle.std.specs.Prelude.{◌≡◌, ◌≢◌, ◌∷◌, [], length, option_map, IfSome, IfNone};
ghost use Rattle.serde_json.specs.Find.{as_array};
ghost use Rattle.serde_json.specs.View.{view, items_view};
ghost use Rattle.std.specs.Option.{option_copied};
ghost use Rattle.px_semantics.specs.Rows.{boolean_row, integer_row, string_row};
ghost use Rattle.px_json.specs.JsonAccess as access;
ghost use Rattle.px_json.specs.Column.{cell, integer_in, boolean_in, string_in};

use px_integers::Integer;
use serde_json::Value;

/// The name and the value of an object's one member, and None where the value is no object or has
/// more or fewer.
pub fn only_member(value: &Value) -> Option<(&str, &Value)>
    ensures { option_map (λ p. (p.0.now, view p.1.now)) result ≡ access.only_member (view value.now) }
{
    let map = value.as_object()?;
    if map.len() != 1 {
        return None;
    }
    let (name, member) = map.first_key_value()?;
    Some((name.as_str(), member))
}

/// An array's items, and None where the value is no array.
pub fn items_of(value: &Value) -> Option<&[Value]>
    ensures { option_map (λ s. items_view s.now) result ≡ as_array (view value.now) }
{
    let items = value.as_array()?;
    Some(items.as_slice())
}

/// The items of a list of two, and None where there are more or fewer.
pub fn pair_of(items: &[Value]) -> Option<(&Value, &Value)>
    ensures some { IfSome result (λ p. items.now ≡ p.0.now ∷ p.1.now ∷ []) }
    ensures none { IfNone result (length items.now ≢ 2) }
{
    if let [first, second] = items {
        Some((first, second))
    } else {
        None
    }
}

/// The items of a list of three, and None where there are more or fewer.
pub fn triple_of(items: &[Value]) -> Option<(&Value, &Value, &Value)>
    ensures some { IfSome result (λ p. items.now ≡ p.0.now ∷ p.1.now ∷ p.2.now ∷ []) }
    ensures none { IfNone result (length items.now ≢ 3) }
{
    if let [first, second, third] = items {
        Some((first, second, third))
    } else {
        None
    }
}

/// The integer that the value is, from -2^63 to 2^64 - 1. None for a number that `serde_json` keeps
/// as a float, and for every other value.
pub fn integer_of(value: &Value) -> Option<i128>
    ensures { result ≡ access.integer_of (view value.now) }
{
    let number = value.as_number()?;
    number.as_i128()
}

/// How many members an object has, or 0.
fn member_count(value: &Value) -> usize
    ensures { result ≡ access.member_count (view value.now) }
{
    match value.as_object() {
        Some(map) => map.len(),
        None => 0,
    }
}

/// The values at two keys of an object with exactly these keys, and None for every other value.
pub fn two_fields<'v>(value: &'v Value, first: &str, second: &str) -> Option<(&'v Value, &'v Value)>
    ensures { option_map (λ p. (view p.0.now, view p.1.now)) result
        ≡ access.two_fields first.now second.now (view value.now) }
{
    if member_count(value) != 2 {
        return None;
    }
    let a = value.get(first)?;
    let b = value.get(second)?;
    Some((a, b))
}

/// The values at three keys of an object with exactly these keys, and None for every other value.
pub fn three_fields<'v>(
    value: &'v Value,
    first: &str,
    second: &str,
    third: &str,
) -> Option<(&'v Value, &'v Value, &'v Value)>
    ensures { option_map (λ p. (view p.0.now, view p.1.now, view p.2.now)) result
        ≡ access.three_fields first.now second.now third.now (view value.now) }
{
    if member_count(value) != 3 {
        return None;
    }
    let a = value.get(first)?;
    let b = value.get(second)?;
    let c = value.get(third)?;
    Some((a, b, c))
}

/// The lists at two keys of an object with exactly these keys, and None for every other value.
pub fn two_lists<'v>(
    value: &'v Value,
    first: &str,
    second: &str,
) -> Option<(&'v [Value], &'v [Value])>
    ensures { option_map (λ p. (items_view p.0.now, items_view p.1.now)) result
        ≡ access.two_lists first.now second.now (view value.now) }
{
    let (a, b) = two_fields(value, first, second)?;
    let first = items_of(a)?;
    let second = items_of(b)?;
    Some((first, second))
}

/// The integer of the type that the value is, and None where it is no integer or outside the type.
pub fn number<T: Integer>(value: &Value) -> Option<T>
    ensures { option_map T.integer result ≡ access.number_in T.value_type (view value.now) }
{
    T::from_wide(integer_of(value)?)
}

/// A null, or an integer of the type.
pub(crate) fn number_cell<T: Integer>(value: &Value) -> Option<Option<T>>
    ensures { option_map (λ row. integer_row (option_map T.integer row)) result
        ≡ cell (integer_in T.value_type) (view value.now) }
{
    if value.is_null() {
        return Some(None);
    }
    let n = number(value)?;
    Some(Some(n))
}

/// A null, or a Boolean.
pub(crate) fn boolean_cell(value: &Value) -> Option<Option<bool>>
    ensures { option_map boolean_row result ≡ cell boolean_in (view value.now) }
{
    if value.is_null() {
        return Some(None);
    }
    let t = value.as_bool()?;
    Some(Some(t))
}

/// A null, or a string.
pub(crate) fn string_cell(value: &Value) -> Option<Option<&str>>
    ensures { option_map (λ row. string_row (option_copied row)) result
        ≡ cell string_in (view value.now) }
{
    if value.is_null() {
        return Some(None);
    }
    let text = value.as_str()?;
    Some(Some(text))
}
