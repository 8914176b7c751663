//! Hashing of types. It reads variants, names, time zones, widths and integers, all the way down.
ghost use Rattle.std.specs.Prelude.{◌≡◌};
ghost use Rattle.std.specs.List.{fold};
ghost use Rattle.px_types.specs.HashInputs.{rank, dtype_input, field_input, fields_input};

use crate::dtype::{DataType, Field, FieldList};
use crate::type_parts::UnknownKind;
use std::hash::{Hash, Hasher};

#[cycle(hashing)]
fn hash_dtype<H: Hasher>(dtype: &DataType, state: &mut H)
    ensures { state.new ≡ fold H.write state.old (dtype_input dtype.now) }
{
    dtype.rank().hash(state);
    match dtype {
        DataType::Datetime(_, zone) => zone.hash(state),
        DataType::List(inner) => hash_dtype(inner.get(), state),
        DataType::Array(inner, width) => {
            hash_dtype(inner.get(), state);
            width.hash(state);
        }
        DataType::Struct(fields) => hash_fields(fields, state),
        DataType::Unknown(UnknownKind::Int(v)) => v.hash(state),
        _ => {}
    }
}

#[cycle(hashing)]
fn hash_field<H: Hasher>(field: &Field, state: &mut H)
    ensures { state.new ≡ fold H.write state.old (field_input field.now) }
{
    field.name.hash(state);
    hash_dtype(&field.dtype, state);
}

#[cycle(hashing)]
fn hash_fields<H: Hasher>(fields: &FieldList, state: &mut H)
    ensures { state.new ≡ fold H.write state.old (fields_input fields.now.entries) }
{
    for field in fields.as_slice() {
        hash_field(field, state);
    }
}

impl Hash for DataType {
    ghost use Rattle.px_base.proofs.Exact.{same-decides};
    ghost use Rattle.px_types.specs.contracts.dtype.DataType.{the_row};
    ghost use Rattle.px_types.specs.HashInputs.{dtype_input};
    ghost use Rattle.std.specs.Hash.{same_Alike};

    ghost hash_input = { dtype_input };

    ghost respects_eq = { (same_Alike dtype_input (same-decides the_row.coded)).fed };

    fn hash<H: Hasher>(&self, state: &mut H) {
        hash_dtype(self, state);
    }
}

impl Hash for Field {
    ghost use Rattle.px_base.proofs.Exact.{same-decides};
    ghost use Rattle.px_types.specs.contracts.dtype.Field.{the_row};
    ghost use Rattle.px_types.specs.HashInputs.{field_input};
    ghost use Rattle.std.specs.Hash.{same_Alike};

    ghost hash_input = { field_input };

    ghost respects_eq = { (same_Alike field_input (same-decides the_row.coded)).fed };

    fn hash<H: Hasher>(&self, state: &mut H) {
        hash_field(self, state);
    }
}

impl DataType {
    // The place of the variant among the variants.
    fn rank(&self) -> u8
        ensures { result ≡ rank self.now }
    {
        match self {
            DataType::Null => 0,
            DataType::Boolean => 1,
            DataType::String => 2,
            DataType::Binary => 3,
            DataType::UInt8 => 4,
            DataType::UInt16 => 5,
            DataType::UInt32 => 6,
            DataType::UInt64 => 7,
            DataType::Int8 => 8,
            DataType::Int16 => 9,
            DataType::Int32 => 10,
            DataType::Int64 => 11,
            DataType::Int128 => 12,
            DataType::Float32 => 13,
            DataType::Float64 => 14,
            DataType::Date => 15,
            DataType::Time => 16,
            DataType::Datetime(_, _) => 17,
            DataType::Duration(_) => 18,
            DataType::Categorical => 19,
            DataType::List(_) => 20,
            DataType::Array(_, _) => 21,
            DataType::Struct(_) => 22,
            DataType::Unknown(_) => 23,
        }
    }
}
