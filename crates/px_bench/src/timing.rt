//! The clock, and the lines that are written.
ghost use Rattle.std.specs.Prelude.{◌≡◌, ◌<◌, ◌*◌, ◌/◌, ◌^◌};

use crate::failed;
use crate::inputs::Inputs;
use crate::work::{ALL, Work};
use std::io;
use std::time::Instant;

/// The least time of so many rounds counts, since the machine may be doing other things in some.
const ROUNDS: u32 = 10;

/// How long a round took, and what was seen of its answers.
#[derive(Clone, Copy)]
struct Round {
    nanos: u128,
    seen: u64,
}

/// Times each piece of work, and writes at last the sum of what was seen of the answers.
pub fn time_all(rt: &HostRuntime, inputs: &Inputs, rows: u32, times: u32) -> io::Result<()> {
    let mut seen = 0u64;
    for work in &ALL {
        let best = best_round(rt, work, inputs, times)?;
        tell(rt, work.label(), thousandths(best.nanos, rows, times))?;
        seen = seen.wrapping_add(best.seen);
    }
    eprintln!(rt; "seen: {seen}")
}

/// The least time of the rounds, and what was seen in all of them.
fn best_round(rt: &HostRuntime, work: &Work, inputs: &Inputs, times: u32) -> io::Result<Round> {
    let mut best = time_round(rt, work, inputs, times)?;
    for _ in 1..ROUNDS {
        let round = time_round(rt, work, inputs, times)?;
        best = Round {
            nanos: best.nanos.min(round.nanos),
            seen: best.seen.wrapping_add(round.seen),
        };
    }
    Ok(best)
}

/// Does the work so many times.
fn time_round(rt: &HostRuntime, work: &Work, inputs: &Inputs, times: u32) -> io::Result<Round> {
    let alloc = rt.alloc();
    let mut seen = 0u64;
    let start = Instant::now(rt)?;
    for _ in 0..times {
        seen = seen.wrapping_add(work.run(alloc, inputs).map_err(failed)?);
    }
    let nanos = start.elapsed(rt)?.as_nanos();
    Ok(Round { nanos, seen })
}

/// The thousandths of a nanosecond that a row took.
fn thousandths(nanos: u128, rows: u32, times: u32) -> u128
    ensures { 0 < rows → 0 < times → nanos * 1000 < 2 ^ 128 → result ≡ nanos * 1000 / (rows * times) }
{
    let steps = u128::from(rows) * u128::from(times);
    nanos.saturating_mul(1000) / steps.max(1)
}

fn tell(rt: &HostRuntime, label: &str, thousandths: u128) -> io::Result<()> {
    let whole = thousandths / 1000;
    let rest = thousandths % 1000;
    eprintln!(rt; "{label}: {whole}.{rest:03} ns a row")
}
