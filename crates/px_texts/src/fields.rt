//! Fields of schemas.

use px_types::{DataType, Field, FieldList, List, PlanError, SmallStr, ValueType};
use std::alloc::Global;

/// Adds a field.
pub fn add_field(
    alloc: Global,
    fields: &mut FieldList,
    name: &str,
    dtype: DataType,
) -> Result<(), PlanError> {
    let name = SmallStr::new(alloc, name)?;
    fields.try_push(Field::new(name, dtype))
}

/// The fields of these names and types.
pub fn fields_of(alloc: Global, fields: &[(&str, ValueType)]) -> Result<FieldList, PlanError> {
    let mut list = List::new(alloc);
    for field in fields {
        add_field(alloc, &mut list, field.0, field.1.dtype())?;
    }
    Ok(list)
}
