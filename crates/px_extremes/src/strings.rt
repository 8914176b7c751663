//! The least and the greatest string, by bytes, in one pass that copies none.
ghost use Rattle.std.specs.Prelude.{◌≡◌};
ghost use Rattle.std.specs.Option.{option_copied};
ghost use Rattle.px_extremes.specs.Choices.{lesser, greater};
ghost use Rattle.px_semantics.specs.Extremes.{min_row, max_row};
ghost use Rattle.px_semantics.specs.Rows.{string_row};

use px_arrays::StringArray;
use std::cmp::Ordering;

/// The lesser of two strings, and the other where one is missing.
fn lesser_string<'a>(x: Option<&'a str>, y: Option<&'a str>) -> Option<&'a str>
    ensures { string_row (option_copied result)
        ≡ lesser (string_row (option_copied x.entry)) (string_row (option_copied y.entry)) }
{
    match (x, y) {
        (Some(first), Some(second)) => {
            if second.cmp(first) == Ordering::Less {
                y
            } else {
                x
            }
        }
        (None, _) => y,
        _ => x,
    }
}

/// The greater of two strings, and the other where one is missing.
fn greater_string<'a>(x: Option<&'a str>, y: Option<&'a str>) -> Option<&'a str>
    ensures { string_row (option_copied result)
        ≡ greater (string_row (option_copied x.entry)) (string_row (option_copied y.entry)) }
{
    match (x, y) {
        (Some(first), Some(second)) => {
            if first.cmp(second) == Ordering::Less {
                y
            } else {
                x
            }
        }
        (None, _) => y,
        _ => x,
    }
}

/// The least string. None where there is none.
pub fn least_string(rows: &StringArray) -> Option<&str>
    ensures { string_row (option_copied result) ≡ min_row rows.now }
{
    let mut least = None;
    for i in 0..rows.len() {
        least = lesser_string(least, rows.get(i));
    }
    least
}

/// The greatest string. None where there is none.
pub fn greatest_string(rows: &StringArray) -> Option<&str>
    ensures { string_row (option_copied result) ≡ max_row rows.now }
{
    let mut greatest = None;
    for i in 0..rows.len() {
        greatest = greater_string(greatest, rows.get(i));
    }
    greatest
}
