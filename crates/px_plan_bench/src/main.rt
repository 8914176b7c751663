//! Times the check and the rewriting of expressions: `px_plan_bench NODES` writes on standard error, a
//! line for each piece of work, the nanoseconds that a node takes at so many nodes, and how many times
//! as long the work takes at twice as many.
#![tactic(auto)]

mod timing;
mod trees;
mod work;

use crate::timing::tell_all;
use std::env;
use std::process::ExitCode;

/// No memory, or no clock, or nothing can be written.
const FAILED: u8 = 3;

/// The argument is not a number.
const OTHER_WORDS: u8 = 6;

fn main(rt: HostRuntime) -> ExitCode {
    let Some(nodes) = size(&rt) else {
        return ExitCode::from(OTHER_WORDS);
    };
    match tell_all(&rt, nodes) {
        Ok(()) => ExitCode::from(0),
        Err(_) => ExitCode::from(FAILED),
    }
}

/// The argument, a number.
fn size(rt: &HostRuntime) -> Option<u32> {
    env::args(rt).ok()?.nth(1)?.as_str().parse().ok()
}
