//! Logic of three values, and on integers bit by bit.

use crate::selects::driver::{Row, first_wrong};
use px_expr::Context;
use std::test::Fail;

const PAIRS: &[Row] = &[
    (
        "p:Boolean(true,true,true,false,false,false,null,null,null) q:Boolean(true,false,null,true,false,null,true,false,null)",
        "p q &",
        "p:Boolean(true,false,null,false,false,false,null,false,null); p q &; 0",
    ),
    (
        "p:Boolean(true,true,true,false,false,false,null,null,null) q:Boolean(true,false,null,true,false,null,true,false,null)",
        "p q |",
        "p:Boolean(true,true,true,true,false,null,true,null,null); p q |; 0",
    ),
    (
        "p:Boolean(true,true,true,false,false,false,null,null,null) q:Boolean(true,false,null,true,false,null,true,false,null)",
        "p q ^",
        "p:Boolean(false,true,null,true,false,null,null,null,null); p q ^; 0",
    ),
    (
        "p:Boolean(true,true,true,false,false,false,null,null,null) q:Boolean(true,false,null,true,false,null,true,false,null)",
        "p q &&",
        "p:Boolean(true,false,null,false,false,false,null,false,null); p q &&; 0",
    ),
    (
        "p:Boolean(true,true,true,false,false,false,null,null,null) q:Boolean(true,false,null,true,false,null,true,false,null)",
        "p q ||",
        "p:Boolean(true,true,true,true,false,null,true,null,null); p q ||; 0",
    ),
    (
        "p:Boolean(true,true,true,false,false,false,null,null,null) q:Boolean(true,false,null,true,false,null,true,false,null)",
        "p q ==",
        "p:Boolean(true,false,null,false,true,null,null,null,null); p q ==; 0",
    ),
    (
        "p:Boolean(true,true,true,false,false,false,null,null,null) q:Boolean(true,false,null,true,false,null,true,false,null)",
        "p q eq_missing",
        "p:Boolean(true,false,false,false,true,false,false,false,true); p q eq_missing; 0",
    ),
    (
        "p:Boolean(true,true,true,false,false,false,null,null,null) q:Boolean(true,false,null,true,false,null,true,false,null)",
        "p q neq_missing",
        "p:Boolean(false,true,true,true,false,true,true,true,false); p q neq_missing; 0",
    ),
    (
        "p:Boolean(true,true,true,false,false,false,null,null,null) q:Boolean(true,false,null,true,false,null,true,false,null)",
        "p q <",
        "p:Boolean(false,false,null,true,false,null,null,null,null); p q <; 0",
    ),
];

// Each operator on every pair of true, false and null.
#[test]
fn pairs_of_booleans(rt: HostRuntime) -> Result<(), Fail> {
    assert_eq!(rt;
        first_wrong(rt.alloc(), Context::Select, PAIRS)?.as_str(),
        ""
    );
    Ok(())
}

const ONES: &[Row] = &[
    (
        "p:Boolean(true,false,null)",
        "p not",
        "p:Boolean(false,true,null); p not; 0",
    ),
    (
        "p:Boolean(true,false,null)",
        "p is_null",
        "p:Boolean(false,false,true); p is_null; 0",
    ),
    (
        "p:Boolean(true,false,null)",
        "p not p & .n",
        "n:Boolean(false,false,null); p not p & . n; 0",
    ),
];

// Functions of one mask.
#[test]
fn single_booleans(rt: HostRuntime) -> Result<(), Fail> {
    assert_eq!(rt;
        first_wrong(rt.alloc(), Context::Select, ONES)?.as_str(),
        ""
    );
    Ok(())
}

const BITS: &[Row] = &[
    (
        "a:UInt8(12,12,null) b:UInt8(10,null,10)",
        "a b &",
        "a:UInt8(8,null,null); a b &; 0",
    ),
    (
        "a:UInt8(12,12,null) b:UInt8(10,null,10)",
        "a b |",
        "a:UInt8(14,null,null); a b |; 0",
    ),
    (
        "a:UInt8(12,12,null) b:UInt8(10,null,10)",
        "a b ^",
        "a:UInt8(6,null,null); a b ^; 0",
    ),
    (
        "a:UInt8(12,null) b:Int8(0,-1)",
        "a not b not",
        "a:UInt8(243,null) b:Int8(-1,0); a not b not; 0",
    ),
];

// Integers go bit by bit, and null where an input is null.
#[test]
fn bits_of_integers(rt: HostRuntime) -> Result<(), Fail> {
    assert_eq!(rt;
        first_wrong(rt.alloc(), Context::Select, BITS)?.as_str(),
        ""
    );
    Ok(())
}
