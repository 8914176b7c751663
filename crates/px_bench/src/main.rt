//! Times the building of columns and the kernels on them: `px_bench ROWS TIMES` writes the nanoseconds
//! that a row takes on standard error, a line for each piece of work.
#![tactic(auto)]

mod inputs;
mod timing;
mod work;

use crate::inputs::Inputs;
use crate::timing::time_all;
use px_types::PlanError;
use std::process::ExitCode;
use std::{env, io};

/// No memory, or no clock, or nothing can be written.
const FAILED: u8 = 3;

/// The arguments are not two numbers.
const OTHER_WORDS: u8 = 6;

fn main(rt: HostRuntime) -> ExitCode {
    let Some((rows, times)) = sizes(&rt) else {
        return ExitCode::from(OTHER_WORDS);
    };
    match run(&rt, rows, times) {
        Ok(()) => ExitCode::from(0),
        Err(_) => ExitCode::from(FAILED),
    }
}

/// The two arguments, each a number.
fn sizes(rt: &HostRuntime) -> Option<(u32, u32)> {
    let mut args = env::args(rt).ok()?.skip(1);
    let rows = args.next()?.as_str().parse().ok()?;
    let times = args.next()?.as_str().parse().ok()?;
    Some((rows, times))
}

fn run(rt: &HostRuntime, rows: u32, times: u32) -> io::Result<()> {
    let inputs = Inputs::new(rt.alloc(), rows).map_err(failed)?;
    time_all(rt, &inputs, rows, times)
}

pub(crate) fn failed(_error: PlanError) -> io::Error {
    io::Error::from(io::ErrorKind::OutOfMemory)
}
