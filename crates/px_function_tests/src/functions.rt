//! Functions of each kind: texts, copies, equality, hashes.

use px_base::{List, PlanError, SmallStr};
use px_functions::{
    BitwiseFunction, BoolList, BooleanFunction, DimensionList, FillNullStrategy, FunctionExpr,
    FusedOperator, NullBehavior, ReshapeDimension,
};
use px_types::DataType;
use std::alloc::Global;
use std::hash::{DefaultHasher, Hash, Hasher};
use std::test::Fail;

fn flags(alloc: Global) -> Result<BoolList, PlanError> {
    let mut flags = List::new(alloc);
    flags.try_push(true)?;
    Ok(flags)
}

fn shape(alloc: Global) -> Result<DimensionList, PlanError> {
    let mut shape = List::new(alloc);
    shape.try_push(ReshapeDimension::new(2))?;
    shape.try_push(ReshapeDimension::new(-1))?;
    Ok(shape)
}

fn value_counts(alloc: Global) -> Result<FunctionExpr, PlanError> {
    Ok(FunctionExpr::ValueCounts {
        sort: true,
        parallel: false,
        name: SmallStr::new(alloc, "n")?,
        normalize: false,
    })
}

// A function at each place, and None past the last.
fn function_at(alloc: Global, place: usize) -> Result<Option<FunctionExpr>, PlanError> {
    match place {
        0 => Ok(Some(FunctionExpr::Clip {
            has_min: false,
            has_max: false,
        })),
        1 => Ok(Some(FunctionExpr::Clip {
            has_min: false,
            has_max: true,
        })),
        2 => Ok(Some(FunctionExpr::TopKBy {
            descending: flags(alloc)?,
        })),
        3 => Ok(Some(FunctionExpr::Bitwise(BitwiseFunction::And))),
        4 => Ok(Some(FunctionExpr::Fused(FusedOperator::SubMultiply))),
        5 => Ok(Some(FunctionExpr::Reshape(shape(alloc)?))),
        6 => Ok(Some(value_counts(alloc)?)),
        7 => Ok(Some(FunctionExpr::ReplaceStrict {
            return_dtype: Some(DataType::Time),
        })),
        8 => Ok(Some(BooleanFunction::IsIn.into())),
        9 => Ok(Some(FunctionExpr::Floor)),
        _ => Ok(None),
    }
}

static TEXTS: [&str; 10] = [
    "clip",
    "clip_max",
    "top_k_by",
    "bitwise_and",
    "fsm",
    "reshape",
    "value_counts",
    "replace_strict",
    "is_in",
    "floor",
];

fn hash_of(function: &FunctionExpr) -> u64 {
    let mut hasher = DefaultHasher::new();
    function.hash(&mut hasher);
    hasher.finish()
}

#[test]
fn functions_have_their_texts_and_equal_copies(rt: HostRuntime) -> Result<(), Fail> {
    let alloc = rt.alloc();
    for (place, text) in TEXTS.iter().enumerate() {
        if let Some(function) = function_at(alloc, place)? {
            let copy = function.try_clone(alloc)?;
            assert_eq!(rt; function.to_string(alloc)?.as_str(), *text);
            assert!(rt; function == copy);
            assert_eq!(rt; hash_of(&function), hash_of(&copy));
        } else {
            assert_eq!(rt; *text, "");
        }
    }
    Ok(())
}

#[test]
fn functions_are_equal_where_all_fields_are(rt: HostRuntime) -> Result<(), Fail> {
    let difference = FunctionExpr::Diff(1, NullBehavior::Drop);
    let other = FunctionExpr::Diff(2, NullBehavior::Drop);
    assert!(rt; difference == FunctionExpr::Diff(1, NullBehavior::Drop));
    assert!(rt; difference != other);
    assert_eq!(rt; hash_of(&difference), hash_of(&other));
    assert!(rt; FunctionExpr::CumMin { reverse: true } != FunctionExpr::CumMax { reverse: true });
    assert!(rt; FunctionExpr::Floor != FunctionExpr::Ceil);
    Ok(())
}

#[test]
fn small_types_answer(rt: HostRuntime) -> Result<(), Fail> {
    let alloc = rt.alloc();
    assert_eq!(rt; BitwiseFunction::And.to_string(alloc)?.as_str(), "and");
    assert_eq!(rt;
        FusedOperator::SubMultiply.to_string(alloc)?.as_str(),
        "fsm"
    );
    assert_eq!(rt; ReshapeDimension::new(-1).get_or_infer(5), 5);
    assert_eq!(rt; ReshapeDimension::new(0).get_or_infer(5), 0);
    assert!(rt; FillNullStrategy::Zero.is_elementwise());
    assert!(rt; !FillNullStrategy::Forward(None).is_elementwise());
    Ok(())
}
