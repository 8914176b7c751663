//! Casts and choice.

use crate::selects::driver::{Row, first_wrong};
use px_expr::Context;
use std::test::Fail;

const CASTS: &[Row] = &[
    (
        "p:Boolean(true,false,null)",
        "p to_Int16",
        "p:Int16(1,0,null); p to_Int16; 0",
    ),
    (
        "a:Int32(0,5,null)",
        "a to_Boolean",
        "a:Boolean(false,true,null); a to_Boolean; 0",
    ),
    (
        "a:Int32(7,null)",
        "a to_Int64 .w a as_UInt8 .n",
        "w:Int64(7,null) n:UInt8(7,null); a to_Int64 . w a as_UInt8 . n; 0",
    ),
    (
        "a:Int32(-1,256,7,null)",
        "a as_UInt8",
        "a:UInt8(null,null,7,null); a as_UInt8; 0",
    ),
    (
        "a:Int32(-1,256,7,null)",
        "a wrap_UInt8",
        "a:UInt8(255,0,7,null); a wrap_UInt8; 0",
    ),
    ("a:Int32(-1,256,7,null)", "a to_UInt8", "InvalidCast"),
    (
        "a:Int32(7,null)",
        "a to_UInt8",
        "a:UInt8(7,null); a to_UInt8; 0",
    ),
    (
        "a:Int32(null,null)",
        "a to_Null",
        "a:Null(null,null); a to_Null; 0",
    ),
    ("a:Int32(1,null)", "a to_Null", "InvalidCast"),
    (
        "a:Int32(1,null)",
        "a as_Null .x a wrap_Null .y",
        "x:Null(null,null) y:Null(null,null); a as_Null . x a wrap_Null . y; 0",
    ),
    (
        "n:Null(null,null)",
        "n to_Int8 .i n to_Boolean .b",
        "i:Int8(null,null) b:Boolean(null,null); n to_Int8 . i n to_Boolean . b; 0",
    ),
    (
        "a:Int32(1,null)",
        "a to_Int32",
        "a:Int32(1,null); a to_Int32; 0",
    ),
    ("a:Int32()", "a to_Int8", "a:Int8(); a to_Int8; 0"),
];

// A value that the target lacks is a fault, null, or wrapped, as the cast says.
#[test]
fn values_are_cast(rt: HostRuntime) -> Result<(), Fail> {
    assert_eq!(rt;
        first_wrong(rt.alloc(), Context::Select, CASTS)?.as_str(),
        ""
    );
    Ok(())
}

const CHOICES: &[Row] = &[
    (
        "p:Boolean(true,false,null) a:Int32(1,2,3) b:Int32(10,20,30)",
        "p a b if",
        "a:Int32(1,20,30); p a b if; 0",
    ),
    (
        "p:Boolean(true,false,null)",
        "p 1 0 if",
        "literal:Int32(1,0,0); p 1:Int32 0:Int32 if; 0",
    ),
    (
        "n:Null(null,null)",
        "n 1:Int8 2:Int8 if",
        "literal:Int8(2,2); n as_Boolean 1:Int8 2:Int8 if; 0",
    ),
    (
        "a:Int32(300) p:Boolean(true)",
        "p 1:Int8 a to_Int8 if",
        "InvalidCast",
    ),
];

// A row of the second where the mask is false or null, and each input is evaluated.
#[test]
fn rows_are_chosen(rt: HostRuntime) -> Result<(), Fail> {
    assert_eq!(rt;
        first_wrong(rt.alloc(), Context::Select, CHOICES)?.as_str(),
        ""
    );
    Ok(())
}
