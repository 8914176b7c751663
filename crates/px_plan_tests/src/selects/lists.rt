//! Lists of expressions.

use crate::selects::driver::{Row, first_wrong};
use px_expr::Context;
use std::test::Fail;

const LENGTHS: &[Row] = &[
    (
        "a:Int32(1,2,3)",
        "a 7 .seven",
        "a:Int32(1,2,3) seven:Int32(7,7,7); a 7:Int32 . seven; 0",
    ),
    (
        "a:Int32(1,2,3)",
        "1 .x 2 .y",
        "x:Int32(1) y:Int32(2); 1:Int32 . x 2:Int32 . y; 0",
    ),
    ("a:Int32(1,2,3)", "s:Int32(10,20) a", "ShapeMismatch"),
    (
        "a:Int32(1,2,3)",
        "s:Int32(10) a",
        "s:Int32(10,10,10) a:Int32(1,2,3); s:Int32(10) a; 0",
    ),
    (
        "a:Int32()",
        "s:Int32(10) a",
        "s:Int32() a:Int32(); s:Int32(10) a; 0",
    ),
    ("a:Int32()", "a s:Int32(1,2) +", "ShapeMismatch"),
    (
        "a:Int32(1,2)",
        "s:Int32() t:Int32(5)",
        "s:Int32() t:Int32(); s:Int32() t:Int32(5); 0",
    ),
    ("a:Int32(1,2)", "", "; ; 0"),
];

// One row is repeated, and other lengths must be equal.
#[test]
fn lengths_join(rt: HostRuntime) -> Result<(), Fail> {
    assert_eq!(rt;
        first_wrong(rt.alloc(), Context::Select, LENGTHS)?.as_str(),
        ""
    );
    Ok(())
}

const NAMES: &[Row] = &[
    (
        "a:Int32(1,null) b:Int32(3,4)",
        "a b + .x a b + .y",
        "x:Int32(4,null) y:Int32(4,null); a b + . x a b + . y; 0",
    ),
    (
        "a:Int32(1) b:Int32(2)",
        "a .b b .a",
        "b:Int32(1) a:Int32(2); a . b b . a; 0",
    ),
    ("a:Int32(1)", "a a", "Duplicate: a"),
    ("a:Int32(1)", "1 2", "Duplicate: literal"),
    ("a:Int32(1)", "q a 1 +", "ColumnNotFound: q"),
    ("a:Int32(1)", "a q +", "ColumnNotFound: q"),
];

// Names are distinct, and one place may have two.
#[test]
fn names_are_distinct(rt: HostRuntime) -> Result<(), Fail> {
    assert_eq!(rt;
        first_wrong(rt.alloc(), Context::Select, NAMES)?.as_str(),
        ""
    );
    Ok(())
}
