//! Laws of lengths, of three-valued logic, of fused arithmetic and of columns, as functions that do nothing.
ghost use Rattle.std.specs.Prelude.{IsTrue};
ghost use Rattle.px_semantics.specs.FusedLaws.{SumWithProductFuses, SumWithProductFusesColumns, ProductWithSumFuses, ProductWithSumFusesColumns, DifferenceWithProductFuses, DifferenceWithProductFusesColumns, ProductWithDifferenceFuses, ProductWithDifferenceFusesColumns};
ghost use Rattle.px_semantics.specs.Laws.{JoiningCommutes, JoiningAssociates, AndCommutes, AndAssociates, OrCommutes, OrAssociates, NotOfAnd, NotOfOr, NotOfNot, XorCommutes};
ghost use Rattle.px_semantics.specs.Columns.{IsColumn, is_column};
ghost use Rattle.px_semantics.specs.Rows.{TypedRows};

/// Lengths broadcast in either order.
pub fn joining_commutes()
    ensures { JoiningCommutes }
{}

/// Three lengths broadcast to the same length from the left and from the right.
pub fn joining_associates()
    ensures { JoiningAssociates }
{}

/// `and`, `or` and `xor` of three-valued logic do not depend on the order of their operands.
pub fn logic_commutes()
    ensures and { AndCommutes }
    ensures or { OrCommutes }
    ensures xor { XorCommutes }
{}

/// `and` and `or` of three-valued logic do not depend on how three operands are grouped.
pub fn logic_associates()
    ensures and { AndAssociates }
    ensures or { OrAssociates }
{}

/// De Morgan's laws, and double negation, for true, false and null.
pub fn logic_negates()
    ensures not_of_and { NotOfAnd }
    ensures not_of_or { NotOfOr }
    ensures not_of_not { NotOfNot }
{}

/// `a + b*c` is the fused form of a, b and c.
pub fn sum_with_product_fuses()
    ensures rows { SumWithProductFuses }
    ensures columns { SumWithProductFusesColumns }
{}

/// `a*b + c` is the same fused form, of c, a and b.
pub fn product_with_sum_fuses()
    ensures rows { ProductWithSumFuses }
    ensures columns { ProductWithSumFusesColumns }
{}

/// `a - b*c` is the fused form of a, b and c.
pub fn difference_with_product_fuses()
    ensures rows { DifferenceWithProductFuses }
    ensures columns { DifferenceWithProductFusesColumns }
{}

/// `a*b - c` is the fused form of a, b and c.
pub fn product_with_difference_fuses()
    ensures rows { ProductWithDifferenceFuses }
    ensures columns { ProductWithDifferenceFusesColumns }
{}

/// The test of columns is exact.
pub fn columns_are_tested()
    ensures passes { (v : TypedRows) → IsTrue (is_column v) → IsColumn v }
    ensures column { (v : TypedRows) → IsColumn v → IsTrue (is_column v) }
{}
