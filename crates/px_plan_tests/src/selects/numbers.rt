//! Arithmetic and comparisons.

use crate::selects::driver::{Row, first_wrong};
use px_expr::Context;
use std::test::Fail;

const ARITHMETIC: &[Row] = &[
    (
        "a:Int8(7,-7,7,-7,5,null) b:Int8(2,2,-2,-2,0,2)",
        "a b / .d a b // .f a b % .m",
        "d:Int8(3,-4,-4,3,null,null) f:Int8(3,-4,-4,3,null,null) m:Int8(1,1,-1,-1,null,null); a b / . d a b // . f a b % . m; 0",
    ),
    (
        "a:Int8(-128) b:Int8(-1)",
        "a b / .d a b % .m",
        "d:Int8(-128) m:Int8(0); a b / . d a b % . m; 0",
    ),
    (
        "a:UInt8(200,3) b:UInt8(100,5)",
        "a b + .s a b - .d a b * .p",
        "s:UInt8(44,8) d:UInt8(100,254) p:UInt8(32,15); a b + . s a b - . d a b * . p; 0",
    ),
    (
        "a:Int64(9223372036854775807,null)",
        "a 1 +",
        "a:Int64(-9223372036854775808,null); a 1:Int64 +; 0",
    ),
    (
        "a:Int8(2,null,2) b:Int8(3,3,3) c:Int8(4,4,null)",
        "a b c fma .x a b c fsm .y a b c fms .z",
        "x:Int8(14,null,null) y:Int8(-10,null,null) z:Int8(2,null,null); a b c fma . x a b c fsm . y a b c fms . z; 0",
    ),
    (
        "a:Int32(1,null,-3)",
        "a negate",
        "a:Int32(-1,null,3); a negate; 0",
    ),
    ("a:UInt32(1)", "a negate", "InvalidOperation"),
    ("n:Null(null,null)", "n n +", "InvalidOperation"),
];

// Integers wrap, quotients round down, and a zero divisor gives null.
#[test]
fn integers_are_computed(rt: HostRuntime) -> Result<(), Fail> {
    assert_eq!(rt;
        first_wrong(rt.alloc(), Context::Select, ARITHMETIC)?.as_str(),
        ""
    );
    Ok(())
}

const COMPARED: &[Row] = &[
    (
        "a:Int16(1,2,null,null) b:Int16(2,2,2,null)",
        "a b < .l a b <= .m a b > .g a b >= .h a b != .n",
        "l:Boolean(true,false,null,null) m:Boolean(true,true,null,null) g:Boolean(false,false,null,null) h:Boolean(false,true,null,null) n:Boolean(true,false,null,null); a b < . l a b <= . m a b > . g a b >= . h a b != . n; 0",
    ),
    (
        "a:Int16(1,2,null,null) b:Int16(2,2,2,null)",
        "a b eq_missing .e a b neq_missing .n",
        "e:Boolean(false,true,false,true) n:Boolean(true,false,true,false); a b eq_missing . e a b neq_missing . n; 0",
    ),
    (
        "n:Null(null,null)",
        "n n eq_missing",
        "n:Boolean(true,true); n n eq_missing; 0",
    ),
];

// Null compares to null, but where validity is compared too.
#[test]
fn integers_are_compared(rt: HostRuntime) -> Result<(), Fail> {
    assert_eq!(rt;
        first_wrong(rt.alloc(), Context::Select, COMPARED)?.as_str(),
        ""
    );
    Ok(())
}
