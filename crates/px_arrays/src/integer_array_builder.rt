//! Numbers of one integer type, collected row by row.
ghost use Rattle.std.specs.Prelude.{◌≡◌, ◌<◌, ◌^◌, ◌++◌, [], ◌∷◌, length, map, option_map, OnOk, OnErr, IfOk};
ghost use Rattle.px_base.specs.Answer.{GivesOrMemory};
ghost use Rattle.px_semantics.specs.Rows.{integer_row};

use crate::bitmap::Bitmap;
use crate::integer_array::IntegerArray;
use px_integers::Integer;
use px_types::PlanError;
use std::alloc::Global;
use std::marker::Model;

/// Rows that are pushed one by one. Where a flag of `valid` is false the row is null, and its value
/// means nothing.
#[derive(Drop)]
pub struct IntegerArrayBuilder<T: Integer> {
    alloc: Global,
    values: Vec<T>,
    valid: Vec<bool>,
}

impl<T: Integer> Model for IntegerArrayBuilder<T> {
    ghost use Rattle.std.specs.Prelude.{List, map};
    ghost use Rattle.std.specs.Simd.Lanes.{zip2};
    ghost use Rattle.px_semantics.specs.Rows.{Row, entry};
    ghost use Rattle.px_arrays.specs.IntegerArrayOf.{IsIntegerArray};

    ghost Value = { List Row };

    ghost view = { λ a. zip2 entry a.valid.items (map T.integer a.values.items) };

    ghost invariant = { λ a. IsIntegerArray T.value_type a.valid.items (map T.integer a.values.items) };
}

impl<T: Integer> IntegerArrayBuilder<T> {
    /// No rows, with room for `capacity` rows. The only error is out of memory.
    pub fn with_capacity(
        alloc: Global,
        capacity: usize,
    ) -> Result<IntegerArrayBuilder<T>, PlanError>
        ensures { GivesOrMemory result [] }
    {
        let values = Vec::with_capacity(alloc, capacity)?;
        let valid = Vec::with_capacity(alloc, capacity)?;
        Ok(IntegerArrayBuilder {
            alloc,
            values,
            valid,
        })
    }

    /// One row more, after the others. None is a null. After an error, which is out of memory, the
    /// rows are as before.
    pub fn push(&mut self, row: Option<T>) -> Result<(), PlanError>
        ensures ok { OnOk result (self.new ≡ self.old ++ integer_row (option_map T.integer row) ∷ []) }
        ensures err { OnErr result ((self.new ≡ self.old) × (result ≡ Err PlanError.OutOfMemory)) }
    {
        let value = row.unwrap_or(T::zero());
        let _wide = value.to_wide();
        self.valid.try_reserve(1)?;
        self.values.push(value)?;
        self.valid.push(row.is_some())?;
        Ok(())
    }

    /// The rows, of which there are fewer than 2^32. The only error is out of memory.
    pub fn finish(self) -> Result<IntegerArray<T>, PlanError>
        requires { length self < 2 ^ 32 }
        ensures { GivesOrMemory result self }
    {
        let valid = Bitmap::from_bools(self.alloc, self.valid.as_slice())?;
        Ok(IntegerArray::from_parts(self.values, valid))
    }
}
