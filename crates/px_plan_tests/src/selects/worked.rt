//! Selections and filters, from expressions to columns.

use crate::selects::driver::{Row, first_wrong};
use px_expr::Context;
use std::test::Fail;

const WORKED: &[Row] = &[
    ("", "100:Int8 100:Int8 +", "literal:Int8(-56); -56:Int8; 1"),
    (
        "",
        "-7:Int32 2:Int32 // .q -7:Int32 2:Int32 % .r",
        "q:Int32(-4) r:Int32(1); -4:Int32 . q 1:Int32 . r; 2",
    ),
    (
        "",
        "7:Int32 0:Int32 /",
        "literal:Int32(null); 7:Int32 0:Int32 /; 0",
    ),
    (
        "",
        "s:Boolean(true,null) false &",
        "s:Boolean(false,false); s:Boolean(true,null) false &; 0",
    ),
    (
        "p:Boolean(true,null,false)",
        "true p &",
        "literal:Boolean(true,null,false); true p &; 0",
    ),
    (
        "a:Int8(100) b:Int8(2) c:Int8(100)",
        "a b * c +",
        "a:Int8(44); c a b fma . a; 1",
    ),
    (
        "p:Boolean(true,null) c:Int8(3,3) d:Int8(4,4)",
        "p true & as_Int8 c * d +",
        "p:Int8(7,null); d p as_Int8 c fma . p; 2",
    ),
    (
        "a:Int32(1,5,null) b:Int32(2,2,2) c:Int32(null,null,7)",
        "a b < c is_null & not",
        "a:Boolean(false,true,true); a b >= c is_not_null |; 3",
    ),
    (
        "u:UInt8(5,null)",
        "u 300 <",
        "u:Boolean(true,null); u as_Int32 300:Int32 <; 0",
    ),
    ("v:UInt64(1)", "v -1 +", "InvalidOperation"),
    ("", "-128:Int8 negate", "literal:Int8(-128); -128:Int8; 1"),
    ("a:Int32(1,2,3)", "a s:Int32(10,20) +", "ShapeMismatch"),
    (
        "a:Int32(1,2,3)",
        "a s:Int32(10) +",
        "a:Int32(11,12,13); a s:Int32(10) +; 0",
    ),
    ("x:Int32(300)", "x to_Int8", "InvalidCast"),
    ("x:Int32(300)", "x as_Int8", "x:Int8(null); x as_Int8; 0"),
    ("x:Int32(300)", "x wrap_Int8", "x:Int8(44); x wrap_Int8; 0"),
    (
        "a:Int32()",
        "a 1",
        "a:Int32() literal:Int32(); a 1:Int32; 0",
    ),
    (
        "a:Int32(1,null,3)",
        "a 5 +",
        "a:Int32(6,null,8); a 5:Int32 +; 0",
    ),
];

// Expressions are checked, rewritten and evaluated.
#[test]
fn expressions_are_selected(rt: HostRuntime) -> Result<(), Fail> {
    assert_eq!(rt;
        first_wrong(rt.alloc(), Context::Select, WORKED)?.as_str(),
        ""
    );
    Ok(())
}

const FILTERED: &[Row] = &[
    (
        "p:Boolean(true,null,false)",
        "true p &",
        ":Boolean(true,null,false); p; 1",
    ),
    (
        "p:Boolean(true,null,false)",
        "false p |",
        ":Boolean(true,null,false); p; 1",
    ),
    (
        "p:Boolean(true,null,false) a:Int32(1,2,3)",
        "p p not",
        ":Boolean(true,null,false) :Boolean(false,null,true); p p not; 0",
    ),
    ("a:Int32(1,2,3)", "a", "InvalidOperation"),
    ("a:Int32(1,2,3)", "a x &", "ColumnNotFound: x"),
    (
        "a:Int32(1,2,3)",
        "a 1 > true",
        ":Boolean(false,true,true) :Boolean(true,true,true); a 1:Int32 > true; 0",
    ),
];

// A filter answers masks without names, and refuses what is none.
#[test]
fn masks_are_answered_without_names(rt: HostRuntime) -> Result<(), Fail> {
    assert_eq!(rt;
        first_wrong(rt.alloc(), Context::Filter, FILTERED)?.as_str(),
        ""
    );
    Ok(())
}
