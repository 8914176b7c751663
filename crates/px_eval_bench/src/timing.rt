//! The clock, and the lines that are written.
ghost use Rattle.std.specs.Prelude.{◌≡◌, ◌<◌, ◌*◌, ◌/◌, ◌^◌};

use crate::exprs::{predicate, short_exprs};
use crate::frames::frame;
use crate::work::Work;
use px_column::Frame;
use px_expr::{Context, Expr};
use px_types::PlanError;
use std::io;
use std::time::Instant;

/// The least time of so many rounds counts, since the machine may be doing other things in some.
const ROUNDS: u32 = 7;

fn failed(_error: PlanError) -> io::Error {
    io::Error::from(io::ErrorKind::OutOfMemory)
}

/// Times a predicate of so many rows, and lists of so many expressions and of twice as many.
pub fn tell_all(rt: &HostRuntime, rows: u32, exprs: u32) -> io::Result<()> {
    tell_predicate(rt, rows)?;
    tell_list(rt, exprs)
}

fn tell_predicate(rt: &HostRuntime, rows: u32) -> io::Result<()> {
    let frame = frame(rt.alloc(), rows).map_err(failed)?;
    let told = tell_on(rt, &frame, rows);
    drop(frame);
    told
}

fn tell_on(rt: &HostRuntime, frame: &Frame, rows: u32) -> io::Result<()> {
    let exprs = predicate(rt.alloc()).map_err(failed)?;
    tell_both(rt, frame, exprs.as_slice(), rows)
}

fn tell_both(rt: &HostRuntime, frame: &Frame, exprs: &[Expr], rows: u32) -> io::Result<()> {
    let kernels = best_round(rt, Work::Kernels, frame, exprs)?;
    let selected = best_round(rt, Work::Select(Context::Filter), frame, exprs)?;
    tell(
        rt,
        "run_select of a predicate, ns a row",
        hundredths(selected, rows),
    )?;
    tell(rt, "its kernels alone, ns a row", hundredths(kernels, rows))?;
    tell(rt, "times as long", ratio(selected, kernels))
}

fn tell_list(rt: &HostRuntime, count: u32) -> io::Result<()> {
    let frame = frame(rt.alloc(), 1).map_err(failed)?;
    let told = tell_lists(rt, &frame, count);
    drop(frame);
    told
}

fn tell_lists(rt: &HostRuntime, frame: &Frame, count: u32) -> io::Result<()> {
    let once = time_list(rt, frame, count)?;
    let twice = time_list(rt, frame, count.saturating_mul(2))?;
    tell(
        rt,
        "run_select of a list, ns an expression",
        hundredths(once, count),
    )?;
    tell(rt, "times as long at twice as many", ratio(twice, once))
}

fn time_list(rt: &HostRuntime, frame: &Frame, count: u32) -> io::Result<u128> {
    let exprs = short_exprs(rt.alloc(), count).map_err(failed)?;
    best_round(rt, Work::Select(Context::Select), frame, exprs.as_slice())
}

/// The nanoseconds of the fastest round.
fn best_round(rt: &HostRuntime, work: Work, frame: &Frame, exprs: &[Expr]) -> io::Result<u128> {
    let mut best = time_round(rt, work, frame, exprs)?;
    for _round in 1..ROUNDS {
        best = best.min(time_round(rt, work, frame, exprs)?);
    }
    Ok(best)
}

fn time_round(rt: &HostRuntime, work: Work, frame: &Frame, exprs: &[Expr]) -> io::Result<u128> {
    let start = Instant::now(rt)?;
    let seen = work.run(rt.alloc(), frame, exprs).map_err(failed)?;
    let nanos = start.elapsed(rt)?.as_nanos();
    // What was seen of the answer is used, so that no work is left out.
    if seen == u64::MAX {
        return Err(io::Error::from(io::ErrorKind::Other));
    }
    Ok(nanos)
}

/// The hundredths of a nanosecond that one of so many took.
fn hundredths(nanos: u128, count: u32) -> u128
    ensures { 0 < count → nanos * 100 < 2 ^ 128 → result ≡ nanos * 100 / count }
{
    nanos.saturating_mul(100) / u128::from(count).max(1)
}

/// How many hundredths of the second time the first is.
fn ratio(first: u128, second: u128) -> u128 {
    first.saturating_mul(100) / second.max(1)
}

fn tell(rt: &HostRuntime, label: &str, hundredths: u128) -> io::Result<()> {
    let whole = hundredths / 100;
    let rest = hundredths % 100;
    eprintln!(rt; "{label}: {whole}.{rest:02}")
}
