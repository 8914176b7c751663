//! The type to which operands unite.
ghost use Rattle.std.specs.Prelude.{◌≡◌, map, Some};
ghost use Rattle.px_types.specs.declared.value_type.ValueType.TheVariants as value_type;
ghost use Rattle.px_meaning.specs.Signatures.{common_of, common_all, own_types, wanted_types, united};
ghost use Rattle.px_coercion.specs.Found.{read, widened_by};

use crate::found::Operand;
use px_types::{ValueType, default_type};

fn common_of(a: Option<ValueType>, b: Option<ValueType>) -> Option<ValueType>
    ensures { result ≡ common_of a b }
{
    match (a, b) {
        (Some(a), Some(b)) => a.common(b),
        _ => None,
    }
}

// The common type of the operands that have a type.
fn common_own_type(operands: &[Operand]) -> Option<ValueType>
    ensures { result ≡ common_all (Some value_type.Null) (own_types (map read operands.now)) }
{
    let mut common = Some(ValueType::Null);
    for operand in operands {
        if let Operand::OfType(own) = operand {
            common = common_of(common, Some(*own));
        }
    }
    common
}

// The type so far, or its common type with the default type of an integer literal that `base` does
// not hold.
fn widened(base: ValueType, common: Option<ValueType>, operand: Operand) -> Option<ValueType>
    ensures { result ≡ widened_by base common (read operand) }
{
    match operand {
        Operand::OfType(_) => common,
        Operand::UntypedInteger(v) => {
            if base.holds(v) {
                common
            } else {
                common_of(common, default_type(v))
            }
        }
    }
}

// The common type of `base` and of the default types of the integer literals that it does not hold.
#[tactic(auto, using(crate::proofs::Steps::wanted_step))]
fn wanted_type(base: ValueType, operands: &[Operand]) -> Option<ValueType>
    ensures { result ≡ common_all (Some base) (wanted_types base (map read operands.now)) }
{
    let mut common = Some(base);
    for operand in operands {
        common = widened(base, common, *operand);
    }
    common
}

/// The type to which operands unite.
#[tactic(auto, unfolding(px_meaning::specs::Signatures::united))]
pub fn united(operands: &[Operand]) -> Option<ValueType>
    ensures { result ≡ united (map read operands.now) }
{
    let base = common_own_type(operands)?;
    wanted_type(base, operands)
}
