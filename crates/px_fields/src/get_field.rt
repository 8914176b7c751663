//! The fields that functions answer.
ghost use Rattle.std.specs.Prelude.{◌≡◌, ◌<◌, List, Option, length, IfOk};
ghost use Rattle.px_base.specs.Answer.{GivesOr};
ghost use Rattle.px_base.specs.declared.error.PlanError.TheVariants.{InvalidOperation};
ghost use Rattle.px_types.specs.declared.dtype.DataType.{DataType};
ghost use Rattle.px_types.specs.declared.dtype.Field.{Field};
ghost use Rattle.px_fields.specs.FieldTypes.{first};
ghost use Rattle.px_fields.specs.FunctionTypes.{type_of, answer_of};

use crate::field_types::replaced;
use crate::reshape::reshaped;
use crate::rule::{Rule, bitwise_rule, boolean_rule, rule_of};
use crate::rule_type::{rule_type, value_counts};
use px_base::PlanError;
use px_functions::{BitwiseFunction, BooleanFunction, FunctionExpr};
use px_types::{DataType, Field};
use std::alloc::Global;

// The first field with the type by a rule.
fn answer(alloc: Global, rule: Rule, fields: &[Field]) -> Result<Field, PlanError>
    ensures name { IfOk result (λ field. field.name ≡ (first fields.now).name) }
    ensures dtype { GivesOr InvalidOperation (λ field. field.dtype) result (answer_of rule fields.now) }
{
    match fields {
        [] => Err(PlanError::InvalidOperation),
        [first, ..] => {
            let name = first.name.try_clone(alloc)?;
            let dtype = rule_type(alloc, rule, &first.dtype, fields)?;
            Ok(Field::new(name, dtype))
        }
    }
}

// The type of the function over at least one field.
fn dtype_of(alloc: Global, function: &FunctionExpr, fields: &[Field]) -> Result<DataType, PlanError>
    requires { 0 < length fields.now }
    ensures { GivesOr InvalidOperation (λ dtype. dtype) result (type_of function.now fields.now) }
{
    let first = &fields[0];
    match function {
        FunctionExpr::ValueCounts {
            name,
            normalize,
            ..
        } => value_counts(alloc, first, name, *normalize),
        FunctionExpr::ReplaceStrict {
            return_dtype: Some(dtype),
        } => dtype.try_clone(alloc),
        FunctionExpr::ReplaceStrict { return_dtype: None } => replaced(alloc, None, fields),
        FunctionExpr::Reshape(dimensions) => reshaped(alloc, dimensions.as_slice(), &first.dtype),
        _ => rule_type(alloc, rule_of(function), &first.dtype, fields),
    }
}

/// A function whose type follows from the fields of its inputs. The tables of types are our own, in
/// outline Polars'.
pub trait GetField {
    /// The type over fields, or none where there is none.
    ghost type_over: { Self → List Field → Option DataType };

    /// The first field with the type of the function over these fields. `InvalidOperation` where
    /// the tables have no type, or where there are fewer fields than they read.
    fn get_field(&self, alloc: Global, fields: &[Field]) -> Result<Field, PlanError>
        ensures name { IfOk result (λ field. field.name ≡ (first fields.now).name) }
        ensures dtype { GivesOr InvalidOperation (λ field. field.dtype) result (type_over self.now fields.now) };
}

impl GetField for BooleanFunction {
    ghost use Rattle.px_fields.specs.FunctionTypes.{boolean_type};

    ghost type_over = { boolean_type };

    fn get_field(&self, alloc: Global, fields: &[Field]) -> Result<Field, PlanError> {
        answer(alloc, boolean_rule(*self), fields)
    }
}

impl GetField for BitwiseFunction {
    ghost use Rattle.px_fields.specs.FunctionTypes.{bitwise_type};

    ghost type_over = { bitwise_type };

    fn get_field(&self, alloc: Global, fields: &[Field]) -> Result<Field, PlanError> {
        answer(alloc, bitwise_rule(*self), fields)
    }
}

impl GetField for FunctionExpr {
    ghost use Rattle.px_fields.specs.FunctionTypes.{function_type};

    ghost type_over = { function_type };

    fn get_field(&self, alloc: Global, fields: &[Field]) -> Result<Field, PlanError> {
        match fields {
            [] => Err(PlanError::InvalidOperation),
            [first, ..] => {
                let name = first.name.try_clone(alloc)?;
                let dtype = dtype_of(alloc, self, fields)?;
                Ok(Field::new(name, dtype))
            }
        }
    }
}
