//! The types that rules make.
ghost use Rattle.std.specs.Prelude.{◌≡◌, ◌||◌, [], ◌∷◌, slice_get, option_map};
ghost use Rattle.px_base.specs.Answer.{GivesOr, GivesOrMemory};
ghost use Rattle.px_base.specs.declared.error.PlanError.TheVariants.{InvalidOperation};
ghost use Rattle.px_types.specs.Classes.{is_integer};
ghost use Rattle.px_fields.specs.FunctionTypes.{when, is_boolean, has_bits, counted_booleans, power_of, fraction_of, run_lengths, rule_type, value_counts, struct_of};

use crate::field_types::{sum_of, supertype};
use crate::rule::Rule;
use crate::type_changes::{
    float_of, numeric_as_float, or_copy, other_difference, physical, product_of, smallest,
    wider_product,
};
use px_base::{List, PlanError, SmallStr, boxed};
use px_types::{DataType, Field};
use std::alloc::Global;

fn is_boolean(dtype: &DataType) -> bool
    ensures { result ≡ is_boolean dtype.now }
{
    matches!(dtype, DataType::Boolean)
}

// Whether values of the type have bits.
fn has_bits(dtype: &DataType) -> bool
    ensures { result ≡ has_bits dtype.now }
{
    is_boolean(dtype) || dtype.is_integer() || dtype.is_float()
}

fn counted_booleans(dtype: DataType) -> DataType
    ensures { result ≡ counted_booleans dtype }
{
    if is_boolean(&dtype) {
        DataType::UInt32
    } else {
        dtype
    }
}

fn power_of(alloc: Global, base: &DataType, exponent: &DataType) -> Result<DataType, PlanError>
    ensures { GivesOrMemory result (power_of base.now exponent.now) }
{
    if base.is_integer() && exponent.is_float() {
        exponent.try_clone(alloc)
    } else {
        base.try_clone(alloc)
    }
}

// A struct of two fields.
fn pair(alloc: Global, left: Field, right: Field) -> Result<DataType, PlanError>
    ensures { GivesOrMemory result (struct_of (left ∷ right ∷ [])) }
{
    let mut fields = List::new(alloc);
    fields.try_push(left)?;
    fields.try_push(right)?;
    Ok(DataType::Struct(fields))
}

fn run_lengths(alloc: Global, value: &DataType) -> Result<DataType, PlanError>
    ensures { GivesOrMemory result (run_lengths value.now) }
{
    let length = Field::new(SmallStr::new(alloc, "len")?, DataType::UInt32);
    let value = Field::new(SmallStr::new(alloc, "value")?, value.try_clone(alloc)?);
    pair(alloc, length, value)
}

pub(crate) fn value_counts(
    alloc: Global,
    values: &Field,
    name: &SmallStr,
    normalize: bool,
) -> Result<DataType, PlanError>
    ensures { GivesOrMemory result (value_counts values.now name.now normalize) }
{
    let dtype = if normalize {
        DataType::Float64
    } else {
        DataType::UInt32
    };
    let counts = Field::new(name.try_clone(alloc)?, dtype);
    pair(alloc, values.try_clone(alloc)?, counts)
}

fn all_fields(alloc: Global, fields: &[Field]) -> Result<DataType, PlanError>
    ensures { GivesOrMemory result (struct_of fields.now) }
{
    let mut copies = List::new(alloc);
    for field in fields {
        copies.try_push(field.try_clone(alloc)?)?;
    }
    Ok(DataType::Struct(copies))
}

fn boolean_or_integer(alloc: Global, dtype: &DataType) -> Result<DataType, PlanError>
    ensures { GivesOr InvalidOperation (λ dtype. dtype) result (when (is_boolean dtype.now || is_integer dtype.now) dtype.now) }
{
    if is_boolean(dtype) || dtype.is_integer() {
        dtype.try_clone(alloc)
    } else {
        Err(PlanError::InvalidOperation)
    }
}

fn bits(dtype: &DataType) -> Result<DataType, PlanError>
    ensures { GivesOr InvalidOperation (λ dtype. dtype) result (when (has_bits dtype.now) DataType.UInt32) }
{
    if has_bits(dtype) {
        Ok(DataType::UInt32)
    } else {
        Err(PlanError::InvalidOperation)
    }
}

fn bit_reduction(alloc: Global, dtype: &DataType) -> Result<DataType, PlanError>
    ensures { GivesOr InvalidOperation (λ dtype. dtype) result (when (has_bits dtype.now) dtype.now) }
{
    if has_bits(dtype) {
        dtype.try_clone(alloc)
    } else {
        Err(PlanError::InvalidOperation)
    }
}

fn power(alloc: Global, base: &DataType, fields: &[Field]) -> Result<DataType, PlanError>
    ensures { GivesOr InvalidOperation (λ dtype. dtype) result (option_map (λ f. power_of base.now f.dtype) (slice_get fields.now 1)) }
{
    match fields.get(1) {
        Some(exponent) => power_of(alloc, base, &exponent.dtype),
        None => Err(PlanError::InvalidOperation),
    }
}

fn fraction(alloc: Global, dtype: &DataType) -> Result<DataType, PlanError>
    ensures { GivesOrMemory result (fraction_of dtype.now) }
{
    if dtype.is_float() {
        dtype.try_clone(alloc)
    } else {
        Ok(DataType::Float64)
    }
}

// The type by a rule.
#[tactic(auto, unfolding(crate::specs::FunctionTypes::rule_type))]
pub(crate) fn rule_type(
    alloc: Global,
    rule: Rule,
    dtype: &DataType,
    fields: &[Field],
) -> Result<DataType, PlanError>
    ensures { GivesOr InvalidOperation (λ dtype. dtype) result (rule_type rule dtype.now fields.now) }
{
    match rule {
        Rule::First => dtype.try_clone(alloc),
        Rule::Boolean => Ok(DataType::Boolean),
        Rule::UInt32 => Ok(DataType::UInt32),
        Rule::UInt64 => Ok(DataType::UInt64),
        Rule::Int64 => Ok(DataType::Int64),
        Rule::Float64 => Ok(DataType::Float64),
        Rule::Supertype => supertype(alloc, fields),
        Rule::SummedSupertype => Ok(counted_booleans(supertype(alloc, fields)?)),
        Rule::FloatSupertype => Ok(float_of(&supertype(alloc, fields)?)),
        Rule::BooleanOrInteger => boolean_or_integer(alloc, dtype),
        Rule::Bits => bits(dtype),
        Rule::BitReduction => bit_reduction(alloc, dtype),
        Rule::Power => power(alloc, dtype, fields),
        Rule::Product => Ok(product_of(dtype)),
        Rule::Smallest => or_copy(alloc, smallest(dtype), dtype),
        Rule::Difference => or_copy(alloc, other_difference(dtype), dtype),
        Rule::Fraction => fraction(alloc, dtype),
        Rule::NumericAsFloat => numeric_as_float(alloc, dtype),
        Rule::RunningSum => sum_of(alloc, dtype),
        Rule::RunningProduct => or_copy(alloc, wider_product(dtype), dtype),
        Rule::ListOfFirst => Ok(DataType::List(boxed(alloc, dtype.try_clone(alloc)?)?)),
        Rule::RunLengths => run_lengths(alloc, dtype),
        Rule::AllFields => all_fields(alloc, fields),
        Rule::Physical => physical(alloc, dtype),
        Rule::Own => Err(PlanError::InvalidOperation),
    }
}
