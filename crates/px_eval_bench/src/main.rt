//! Times `run_select`: `px_eval_bench ROWS EXPRS` writes on standard error the nanoseconds that a row
//! of a predicate takes, beside those of its kernels alone, and those that an expression takes in a
//! list of so many, and how many times as long twice as many take.
#![tactic(auto)]

mod exprs;
mod frames;
mod timing;
mod work;

use crate::timing::tell_all;
use std::env;
use std::process::ExitCode;

/// No memory, or no clock, or nothing can be written.
const FAILED: u8 = 3;

/// The arguments are not two numbers.
const OTHER_WORDS: u8 = 6;

fn main(rt: HostRuntime) -> ExitCode {
    let Some((rows, exprs)) = sizes(&rt) else {
        return ExitCode::from(OTHER_WORDS);
    };
    match tell_all(&rt, rows, exprs) {
        Ok(()) => ExitCode::from(0),
        Err(_) => ExitCode::from(FAILED),
    }
}

/// The two arguments, each a number.
fn sizes(rt: &HostRuntime) -> Option<(u32, u32)> {
    let mut args = env::args(rt).ok()?.skip(1);
    let rows = args.next()?.as_str().parse().ok()?;
    let exprs = args.next()?.as_str().parse().ok()?;
    Some((rows, exprs))
}
