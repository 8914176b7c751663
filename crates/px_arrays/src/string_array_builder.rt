//! Strings, collected row by row.
ghost use Rattle.std.specs.Prelude.{◌≡◌, ◌<◌, ◌^◌, ◌++◌, [], ◌∷◌, length, OnOk, OnErr};
ghost use Rattle.std.specs.Option.{option_copied};
ghost use Rattle.px_base.specs.Answer.{GivesOrMemory};
ghost use Rattle.px_semantics.specs.Rows.{string_row};

use crate::bitmap::Bitmap;
use crate::string_array::StringArray;
use crate::string_data::StringData;
use px_types::PlanError;
use std::alloc::Global;
use std::marker::Model;

/// Rows that are pushed one by one. Where a flag of `valid` is false the row is null, and its string
/// means nothing.
#[derive(Drop)]
pub struct StringArrayBuilder {
    alloc: Global,
    texts: StringData,
    valid: Vec<bool>,
}

impl Model for StringArrayBuilder {
    ghost use Rattle.std.specs.Prelude.{◌≡◌, List, length};
    ghost use Rattle.std.specs.Simd.Lanes.{zip2};
    ghost use Rattle.px_semantics.specs.Rows.{Row, string_entry};

    ghost Value = { List Row };

    ghost view = { λ a. zip2 string_entry a.valid.items a.texts };

    ghost invariant = { λ a. length a.valid.items ≡ length a.texts };
}

impl StringArrayBuilder {
    /// No rows, with room for `rows` rows, but for the bytes of their strings. The only error is
    /// out of memory.
    pub fn with_capacity(alloc: Global, rows: usize) -> Result<StringArrayBuilder, PlanError>
        ensures { GivesOrMemory result [] }
    {
        let texts = StringData::with_capacity(alloc, rows)?;
        let valid = Vec::with_capacity(alloc, rows)?;
        Ok(StringArrayBuilder {
            alloc,
            texts,
            valid,
        })
    }

    /// One row more, after the others. None is a null. After an error, which is out of memory, the
    /// rows are as before.
    pub fn push(&mut self, row: Option<&str>) -> Result<(), PlanError>
        ensures ok { OnOk result (self.new ≡ self.old ++ string_row (option_copied row.entry) ∷ []) }
        ensures err { OnErr result ((self.new ≡ self.old) × (result ≡ Err PlanError.OutOfMemory)) }
    {
        self.valid.try_reserve(1)?;
        self.texts.push(row.unwrap_or(""))?;
        self.valid.push(row.is_some())?;
        Ok(())
    }

    /// The rows, of which there are fewer than 2^32. The only error is out of memory.
    pub fn finish(self) -> Result<StringArray, PlanError>
        requires { length self < 2 ^ 32 }
        ensures { GivesOrMemory result self }
    {
        let valid = Bitmap::from_bools(self.alloc, self.valid.as_slice())?;
        Ok(StringArray::from_parts(self.texts, valid))
    }
}
