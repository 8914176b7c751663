//! Products are fused into sums and differences.
ghost use Rattle.std.specs.Prelude.{◌≡◌, ◌<◌, ◌++◌, ℕ, [], ◌∷◌, length, IfOk, OnOk, OnErr};
ghost use Rattle.px_arena.specs.Denotes.{IsGrown, IsIn, inputs_of};
ghost use Rattle.px_arena.specs.Runs.{Offers};
ghost use Rattle.px_rules.specs.Fusion.{product_of, fused_by, fused_options, fused_call};
ghost use Rattle.px_rules.specs.Groups.{IsRewriteIn, IsRewriteOf, fused_products, fused_rule};
ghost use Rattle.px_rules.specs.MadeOptions.{KeepsOptions};
ghost use Rattle.px_rules.specs.Plan.{IsCheckedAt};
ghost use Rattle.px_rules.specs.RuleLaws.{rule_keeps};

use crate::literal_free::both_literal_free;
use crate::output_name::name_at;
use crate::rule::OptimizationRule;
use crate::views::{BinaryParts, binary_of};
use px_arena::{AExpr, Arena, ExprIR, ExprIRList, Node};
use px_expr::{Plan, PlanContext};
use px_functions::{EvaluatedFunction, FunctionExpr};
use px_types::{
    ApplyOptions, CastingRules, FmtName, FunctionFlags, FunctionOptions, FusedOperator, Operator,
    PlanError,
};
use std::alloc::Global;

/// A fused node, and whether it needs the name of the left operand.
#[derive(Clone, Copy)]
pub struct Fusion {
    pub operator: FusedOperator,
    pub first: Node,
    pub second: Node,
    pub third: Node,
    pub is_named: bool,
}

/// The operands of a product.
fn product_of(expr: &AExpr) -> Option<BinaryParts>
    ensures { result ≡ product_of expr.now }
{
    match binary_of(expr) {
        None => None,
        Some(parts) => match parts.op {
            Operator::Multiply => Some(parts),
            _ => None,
        },
    }
}

/// How the operator fuses with a product on one of its sides.
fn fused_by(
    op: Operator,
    left: Node,
    right: Node,
    left_product: Option<BinaryParts>,
    right_product: Option<BinaryParts>,
) -> Option<Fusion>
    ensures { result ≡ fused_by op left right left_product right_product }
{
    match op {
        Operator::Plus => match left_product {
            Some(product) => Some(Fusion {
                operator: FusedOperator::MultiplyAdd,
                first: right,
                second: product.left,
                third: product.right,
                is_named: true,
            }),
            None => match right_product {
                Some(product) => Some(Fusion {
                    operator: FusedOperator::MultiplyAdd,
                    first: left,
                    second: product.left,
                    third: product.right,
                    is_named: false,
                }),
                None => None,
            },
        },
        Operator::Minus => match right_product {
            Some(product) => Some(Fusion {
                operator: FusedOperator::SubMultiply,
                first: left,
                second: product.left,
                third: product.right,
                is_named: false,
            }),
            None => match left_product {
                Some(product) => Some(Fusion {
                    operator: FusedOperator::MultiplySub,
                    first: product.left,
                    second: product.right,
                    third: right,
                    is_named: false,
                }),
                None => None,
            },
        },
        _ => None,
    }
}

fn fused_options() -> FunctionOptions
    ensures { result ≡ fused_options }
{
    FunctionOptions {
        collect_groups: ApplyOptions::ElementWise,
        flags: FunctionFlags::default(),
        fmt_str: FmtName::Empty,
        cast_options: Some(CastingRules::Supertype {
            allow_primitive_to_string: true,
        }),
    }
}

/// The fused node.
fn fused_call(alloc: Global, fusion: Fusion) -> Result<AExpr, PlanError>
    ensures call { IfOk result (λ e. e ≡ fused_call fusion) }
    ensures err { OnErr result (result ≡ Err PlanError.OutOfMemory) }
{
    let mut input = ExprIRList::new(alloc);
    input.try_push(ExprIR(fusion.first))?;
    input.try_push(ExprIR(fusion.second))?;
    input.try_push(ExprIR(fusion.third))?;
    Ok(AExpr::Function {
        input,
        function: FunctionExpr::from(EvaluatedFunction::Fused(fusion.operator)),
        options: fused_options(),
    })
}

/// A new place that holds the fused node.
fn add_fused(alloc: Global, arena: &mut Arena, fusion: Fusion) -> Result<Node, PlanError>
    requires { (m : ℕ) → IsIn m (inputs_of (fused_call fusion)) → m < length arena.old }
    ensures kept { IsGrown arena.old arena.new }
    ensures next { IfOk result (λ n. n.0 ≡ length arena.old) }
    ensures added { OnOk result (arena.new ≡ arena.old ++ fused_call fusion ∷ []) }
    ensures err { OnErr result (result ≡ Err PlanError.OutOfMemory) }
{
    let fused = fused_call(alloc, fusion)?;
    arena.add(fused)
}

/// A sum or a difference with a product, in one step. No literal stands in an operand.
fn fuse(
    alloc: Global,
    arena: &mut Arena,
    node: Node,
    plan: &PlanContext<'_>,
) -> Result<Option<AExpr>, PlanError>
    requires { IsCheckedAt (⟦<PlanContext<'static> as Plan>⟧.catalog plan.now) arena.old node.0 }
    ensures kept { IsGrown arena.old arena.new }
    ensures answer { IfOk result (Offers (IsRewriteIn fused_products
        (⟦<PlanContext<'static> as Plan>⟧.catalog plan.now) plan.now.context) arena.old arena.new node.0) }
    ensures options { IfOk result (KeepsOptions arena.old arena.new node.0) }
    ensures err { OnErr result (result ≡ Err PlanError.OutOfMemory) }
{
    let Some(outer) = binary_of(arena.get(node)) else {
        return Ok(None);
    };
    let left_product = product_of(arena.get(outer.left));
    let right_product = product_of(arena.get(outer.right));
    match fused_by(
        outer.op,
        outer.left,
        outer.right,
        left_product,
        right_product,
    ) {
        None => Ok(None),
        Some(fusion) => {
            if !both_literal_free(arena, outer.left, outer.right) {
                return Ok(None);
            }
            if fusion.is_named {
                let name = name_at(alloc, arena, outer.left)?;
                let place = add_fused(alloc, arena, fusion)?;
                return Ok(Some(AExpr::Alias(place, name)));
            }
            let fused = fused_call(alloc, fusion)?;
            Ok(Some(fused))
        }
    }
}

/// Fuses a product into a sum or a difference.
#[derive(Drop)]
pub struct FusedArithmetic {}

impl OptimizationRule for FusedArithmetic {
    ghost is_rewrite = { IsRewriteOf fused_rule };

    fn optimize_expr(
        &mut self,
        alloc: Global,
        arena: &mut Arena,
        node: Node,
        plan: &PlanContext<'_>,
    ) -> Result<Option<AExpr>, PlanError> {
        fuse(alloc, arena, node, plan)
    }

    ghost keeps = { rule_keeps fused_rule };
}
