//! A list of strings, each of which may be null.
ghost use Rattle.std.specs.Prelude.{◌≡◌, ◌<◌, ◌^◌, length, map, replicate, get_or, None, is_some};
ghost use Rattle.std.specs.Option.{option_copied};
ghost use Rattle.std.specs.Simd.Lanes.{zip2, Each1};
ghost use Rattle.px_base.specs.Answer.{GivesOrMemory};
ghost use Rattle.px_semantics.specs.Rows.{string_entry, string_row, IsRowOf};
ghost use Rattle.px_types.specs.declared.value_type.ValueType.TheVariants as value_type;

use crate::bitmap::Bitmap;
use crate::string_array_builder::StringArrayBuilder;
use crate::string_data::StringData;
use px_types::{PlanError, SmallStr};
use std::alloc::Global;
use std::marker::Model;

/// Fewer than 2^32 rows. Where bit i of `valid` is not set the row is null, and string i means
/// nothing.
#[derive(Drop)]
pub struct StringArray {
    texts: StringData,
    valid: Bitmap,
}

impl Model for StringArray {
    ghost use Rattle.std.specs.Prelude.{◌≡◌, List, length};
    ghost use Rattle.std.specs.Simd.Lanes.{zip2};
    ghost use Rattle.px_semantics.specs.Rows.{Row, string_entry};

    ghost Value = { List Row };

    ghost view = { λ a. zip2 string_entry a.valid a.texts };

    ghost invariant = { λ a. length a.valid ≡ length a.texts };
}

/// The string of a row, or None where it is null.
fn borrowed(text: &Option<SmallStr>) -> Option<&str>
    ensures { option_copied result ≡ text.now }
{
    match text {
        Some(text) => Some(text.as_str()),
        None => None,
    }
}

impl StringArray {
    /// The strings, each of them null where `valid` is not set.
    pub(crate) fn from_parts(texts: StringData, valid: Bitmap) -> StringArray
        requires { length valid ≡ length texts }
        ensures { result ≡ zip2 string_entry valid texts }
    {
        StringArray { texts, valid }
    }

    /// These strings as rows, of which there are fewer than 2^32. None is a null. The only error is
    /// out of memory.
    pub fn from_options(alloc: Global, texts: &[Option<SmallStr>]) -> Result<StringArray, PlanError>
        requires { length texts.now < 2 ^ 32 }
        ensures { GivesOrMemory result (map string_row texts.now) }
    {
        let mut rows = StringArrayBuilder::with_capacity(alloc, texts.len())?;
        for text in texts {
            rows.push(borrowed(text))?;
        }
        rows.finish()
    }

    /// The number of rows, which is below 2^32.
    pub fn len(&self) -> usize
        ensures rows { result ≡ length self.now }
        ensures below_limit { result < 2 ^ 32 }
        ensures typed { Each1 (IsRowOf value_type.String) self.now }
    {
        self.valid.len()
    }

    /// Row `i`, which is below the length: None where it is null.
    pub fn get(&self, i: usize) -> Option<&str>
        requires { i < length self.now }
        ensures { string_row (option_copied result) ≡ get_or self.now i None }
    {
        if self.valid.get(i) {
            Some(self.texts.get(i))
        } else {
            None
        }
    }

    /// Which rows are not null.
    pub fn valid(&self) -> &Bitmap
        ensures { result.now ≡ map is_some self.now }
    {
        &self.valid
    }

    /// The same rows. The only error is out of memory.
    pub fn try_clone(&self, alloc: Global) -> Result<StringArray, PlanError>
        ensures { GivesOrMemory result self.now }
    {
        let texts = self.texts.try_clone(alloc)?;
        let valid = self.valid.try_clone(alloc)?;
        Ok(StringArray { texts, valid })
    }

    /// The one row `len` times, fewer than 2^32. The only error is out of memory.
    pub fn repeated(&self, alloc: Global, len: usize) -> Result<StringArray, PlanError>
        requires one_row { length self.now ≡ 1 }
        requires below_limit { len < 2 ^ 32 }
        ensures { GivesOrMemory result (replicate len (get_or self.now 0 None)) }
    {
        let row = self.get(0);
        let mut rows = StringArrayBuilder::with_capacity(alloc, len)?;
        for _ in 0..len {
            rows.push(row)?;
        }
        rows.finish()
    }
}
