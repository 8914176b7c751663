use px_expr::{Expr, LiteralValue, binary_expr};
use px_types::{Operator, SmallStr};
use std::test::Fail;

// With memory, expressions are built and copied.
#[test]
fn expressions_are_built_and_copied(rt: HostRuntime) -> Result<(), Fail> {
    let alloc = rt.alloc();
    let left = Expr::Column(SmallStr::new(alloc, "a")?);
    let right = Expr::Literal(LiteralValue::Int32(5));
    let sum = binary_expr(alloc, left, Operator::Plus, right)?.alias(alloc, "total")?;
    let Expr::Alias(input, name) = sum.try_clone(alloc)? else {
        return Err(Fail::from("no alias"));
    };
    assert_eq!(rt; name.as_str(), "total");
    let Expr::BinaryExpr { left, op, right } = input.get() else {
        return Err(Fail::from("no operator"));
    };
    assert!(rt; matches!(left.get(), Expr::Column(name) if name.as_str() == "a"));
    assert_eq!(rt; *op, Operator::Plus);
    assert!(rt; matches!(right.get(), Expr::Literal(LiteralValue::Int32(5))));
    Ok(())
}
