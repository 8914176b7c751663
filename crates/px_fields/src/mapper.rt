//! Answers of functions by the fields of their inputs.
ghost use Rattle.std.specs.Prelude.{◌≡◌, ◌<◌, ◌⊎◌, length, IfOk, IfErr, IsSome};
ghost use Rattle.std.specs.Fn.{FnOnceReturnsAt};
ghost use Rattle.px_base.specs.Answer.{GivesOr, GivesOrMemory, GivesSeen};
ghost use Rattle.px_base.specs.declared.error.PlanError.TheVariants.{InvalidOperation, OutOfMemory};
ghost use Rattle.px_fields.specs.TypeChanges.{or_type, array_inner_of, float_of, numeric_as_float, physical, zoned};
ghost use Rattle.px_fields.specs.FieldTypes.{first, unknown, element_or_unknown, sum_of, supertype, list_supertype, replaced};

use crate::field_types::{element_or_unknown, list_supertype, replaced, sum_of, supertype};
use crate::type_changes::{array_inner_of, float_of, numeric_as_float, physical};
use px_base::{PlanError, SmallStr};
use px_types::{DataType, Field, UnknownKind};
use std::alloc::Global;
use std::marker::Model;

/// The fields of a function's inputs, of which there is at least one. Contracts see their list.
/// Each call but `try_map_field` answers a field with the first field's name.
#[derive(Drop)]
pub struct FieldsMapper<'a> {
    fields: &'a [Field],
}

impl<'a> Model for FieldsMapper<'a> {
    ghost use Rattle.std.specs.Prelude.{List, length, ◌<◌};
    ghost use Rattle.std.specs.Coded.{codes};
    ghost use Rattle.px_types.specs.declared.dtype.Field.{Field};
    ghost use Rattle.px_types.specs.contracts.dtype.Field as field;

    ghost Value = { List Field };

    ghost view = { λ mapper. mapper.fields.now };

    ghost invariant = { λ mapper. 0 < length mapper.fields.now };

    ghost coded = { Prim.hlevel (codes, field.the_row.coded) };
}

impl<'a> FieldsMapper<'a> {
    /// A mapper over these fields.
    pub fn new(fields: &'a [Field]) -> FieldsMapper<'a>
        requires { 0 < length fields.now }
        ensures { result ≡ fields.now }
    {
        FieldsMapper { fields }
    }

    /// The fields, in order.
    pub fn args(&self) -> &[Field]
        ensures { result.now ≡ self.now }
    {
        self.fields
    }

    /// The number of fields.
    pub fn get_fields_lens(&self) -> usize
        ensures { result ≡ length self.now }
    {
        self.fields.len()
    }

    // The first field.
    #[tactic(auto, using(crate::proofs::FieldLemmas::first_at))]
    fn first(&self) -> &Field
        ensures { result.now ≡ first self.now }
    {
        &self.fields[0]
    }

    // The type of the first field.
    fn first_dtype(&self) -> &DataType
        ensures { result.now ≡ (first self.now).dtype }
    {
        &self.first().dtype
    }

    /// The first field. The only error is out of memory.
    pub fn with_same_dtype(&self, alloc: Global) -> Result<Field, PlanError>
        ensures { GivesOrMemory result (first self.now) }
    {
        self.first().try_clone(alloc)
    }

    /// The first field with this type. The only error is out of memory.
    pub fn with_dtype(&self, alloc: Global, dtype: DataType) -> Result<Field, PlanError>
        ensures { GivesOrMemory result (record { name = (first self.now).name; dtype = dtype }) }
    {
        let name = self.first().name.try_clone(alloc)?;
        Ok(Field { name, dtype })
    }

    /// The first field with what the function makes of its type. The only error is out of memory.
    pub fn map_dtype<F: FnOnce(&DataType) -> DataType>(
        &self,
        alloc: Global,
        func: F,
    ) -> Result<Field, PlanError>
        requires { F.IsAlwaysCallable func }
        ensures name { IfOk result (λ field. field.name ≡ (first self.now).name) }
        ensures dtype { IfOk result (λ field. FnOnceReturnsAt F.FnOnce func (first self.now).dtype field.dtype) }
        ensures refusal { IfErr result (λ e. e ≡ OutOfMemory) }
    {
        let dtype = func(self.first_dtype());
        self.with_dtype(alloc, dtype)
    }

    /// The first field with what the function makes of its type. The errors are the function's
    /// own and out of memory.
    pub fn try_map_dtype<F: FnOnce(&DataType) -> Result<DataType, PlanError>>(
        &self,
        alloc: Global,
        func: F,
    ) -> Result<Field, PlanError>
        requires { F.IsAlwaysCallable func }
        ensures name { IfOk result (λ field. field.name ≡ (first self.now).name) }
        ensures dtype { IfOk result (λ field. FnOnceReturnsAt F.FnOnce func (first self.now).dtype (Ok field.dtype)) }
        ensures refusal { IfErr result (λ e. (e ≡ OutOfMemory) ⊎ FnOnceReturnsAt F.FnOnce func (first self.now).dtype (Err e)) }
    {
        match func(self.first_dtype()) {
            Ok(dtype) => self.with_dtype(alloc, dtype),
            Err(error) => Err(error),
        }
    }

    /// The first field with the type that the function makes of all fields. The errors are the
    /// function's own and out of memory.
    pub fn try_map_dtypes<F: FnOnce(&[Field]) -> Result<DataType, PlanError>>(
        &self,
        alloc: Global,
        func: F,
    ) -> Result<Field, PlanError>
        requires { F.IsAlwaysCallable func }
        ensures name { IfOk result (λ field. field.name ≡ (first self.now).name) }
        ensures dtype { IfOk result (λ field. FnOnceReturnsAt F.FnOnce func self.now (Ok field.dtype)) }
        ensures refusal { IfErr result (λ e. (e ≡ OutOfMemory) ⊎ FnOnceReturnsAt F.FnOnce func self.now (Err e)) }
    {
        match func(self.fields) {
            Ok(dtype) => self.with_dtype(alloc, dtype),
            Err(error) => Err(error),
        }
    }

    /// What the function makes of the first field, and its own error.
    pub fn try_map_field<F: FnOnce(&Field) -> Result<Field, PlanError>>(
        &self,
        _alloc: Global,
        func: F,
    ) -> Result<Field, PlanError>
        requires { F.IsAlwaysCallable func }
        ensures { FnOnceReturnsAt F.FnOnce func (first self.now) result }
    {
        func(self.first())
    }

    /// The first field as `Float32` where it is that, else as `Float64`. The only error is out of
    /// memory.
    pub fn map_to_float_dtype(&self, alloc: Global) -> Result<Field, PlanError>
        ensures name { IfOk result (λ field. field.name ≡ (first self.now).name) }
        ensures dtype { GivesSeen (λ field. field.dtype) result (float_of (first self.now).dtype) }
    {
        self.with_dtype(alloc, float_of(self.first_dtype()))
    }

    /// The first field, where it is of a type of numbers as `Float32` or `Float64`. The only error
    /// is out of memory.
    pub fn map_numeric_to_float_dtype(&self, alloc: Global) -> Result<Field, PlanError>
        ensures name { IfOk result (λ field. field.name ≡ (first self.now).name) }
        ensures dtype { GivesSeen (λ field. field.dtype) result (numeric_as_float (first self.now).dtype) }
    {
        let dtype = numeric_as_float(alloc, self.first_dtype())?;
        self.with_dtype(alloc, dtype)
    }

    /// The first field with the type that its values are kept as. The only error is out of memory.
    pub fn to_physical_type(&self, alloc: Global) -> Result<Field, PlanError>
        ensures name { IfOk result (λ field. field.name ≡ (first self.now).name) }
        ensures dtype { GivesSeen (λ field. field.dtype) result (physical (first self.now).dtype) }
    {
        let dtype = physical(alloc, self.first_dtype())?;
        self.with_dtype(alloc, dtype)
    }

    /// The first field with the common type of all fields. `InvalidOperation` where they have none,
    /// or where it is that of a literal that no type holds.
    pub fn map_to_supertype(&self, alloc: Global) -> Result<Field, PlanError>
        ensures name { IfOk result (λ field. field.name ≡ (first self.now).name) }
        ensures dtype { GivesOr InvalidOperation (λ field. field.dtype) result (supertype self.now) }
    {
        let dtype = supertype(alloc, self.fields)?;
        self.with_dtype(alloc, dtype)
    }

    /// The first field with the type of its elements, which is unknown unless it is a list or an
    /// array. The only error is out of memory.
    pub fn map_to_list_and_array_inner_dtype(&self, alloc: Global) -> Result<Field, PlanError>
        ensures name { IfOk result (λ field. field.name ≡ (first self.now).name) }
        ensures dtype { GivesSeen (λ field. field.dtype) result (element_or_unknown (first self.now).dtype) }
    {
        let dtype = element_or_unknown(alloc, self.first_dtype())?;
        self.with_dtype(alloc, dtype)
    }

    /// The first field with the type of its elements. `InvalidOperation` where it is no array.
    pub fn try_map_to_array_inner_dtype(&self, alloc: Global) -> Result<Field, PlanError>
        ensures name { IfOk result (λ field. field.name ≡ (first self.now).name) }
        ensures dtype { GivesOr InvalidOperation (λ field. field.dtype) result (array_inner_of (first self.now).dtype) }
    {
        match array_inner_of(self.first_dtype()) {
            Some(inner) => self.with_dtype(alloc, inner.try_clone(alloc)?),
            None => Err(PlanError::InvalidOperation),
        }
    }

    /// The first field with the list of the common type of all fields, where a list counts as the
    /// type of its elements. `InvalidOperation` where they have none.
    pub fn map_to_list_supertype(&self, alloc: Global) -> Result<Field, PlanError>
        ensures name { IfOk result (λ field. field.name ≡ (first self.now).name) }
        ensures dtype { GivesOr InvalidOperation (λ field. field.dtype) result (list_supertype self.now) }
    {
        let dtype = list_supertype(alloc, self.fields)?;
        self.with_dtype(alloc, dtype)
    }

    /// The first field in this time zone. `InvalidOperation` where it is no `Datetime`.
    pub fn map_datetime_dtype_timezone(
        &self,
        alloc: Global,
        tz: Option<SmallStr>,
    ) -> Result<Field, PlanError>
        ensures name { IfOk result (λ field. field.name ≡ (first self.now).name) }
        ensures dtype { GivesOr InvalidOperation (λ field. field.dtype) result (zoned tz (first self.now).dtype) }
    {
        match self.first_dtype() {
            DataType::Datetime(unit, _) => self.with_dtype(alloc, DataType::Datetime(*unit, tz)),
            _ => Err(PlanError::InvalidOperation),
        }
    }

    /// The first field with the type of a sum of its elements. The only error is out of memory.
    pub fn nested_sum_type(&self, alloc: Global) -> Result<Field, PlanError>
        ensures name { IfOk result (λ field. field.name ≡ (first self.now).name) }
        ensures dtype { GivesSeen (λ field. field.dtype) result (sum_of (element_or_unknown (first self.now).dtype)) }
    {
        let element = element_or_unknown(alloc, self.first_dtype())?;
        let dtype = sum_of(alloc, &element)?;
        self.with_dtype(alloc, dtype)
    }

    /// The first field with this type, and an unknown one where none is given. The only error is
    /// out of memory.
    pub fn with_opt_dtype(&self, alloc: Global, dtype: Option<DataType>) -> Result<Field, PlanError>
        ensures name { IfOk result (λ field. field.name ≡ (first self.now).name) }
        ensures dtype { GivesSeen (λ field. field.dtype) result (or_type unknown dtype) }
    {
        self.with_dtype(alloc, dtype.unwrap_or(DataType::Unknown(UnknownKind::Any)))
    }

    /// The first field with this type, where none is given with that of the third field, or its
    /// common type with the fourth field's. `InvalidOperation` where they have none.
    pub fn replace_dtype(
        &self,
        alloc: Global,
        return_dtype: Option<DataType>,
    ) -> Result<Field, PlanError>
        requires { IsSome return_dtype ⊎ (2 < length self.now) }
        ensures name { IfOk result (λ field. field.name ≡ (first self.now).name) }
        ensures dtype { GivesOr InvalidOperation (λ field. field.dtype) result (replaced return_dtype self.now) }
    {
        let dtype = replaced(alloc, return_dtype, self.fields)?;
        self.with_dtype(alloc, dtype)
    }
}
