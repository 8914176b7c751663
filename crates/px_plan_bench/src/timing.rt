//! The clock, and the lines that are written.

use crate::work::{ALL, Work, schema};
use px_expr::ExprList;
use px_plan::KernelList;
use px_types::{PlanError, Schema};
use std::io;
use std::time::Instant;

/// The least time of so many rounds counts, since the machine may be doing other things in some.
const ROUNDS: u32 = 5;

fn failed(_error: PlanError) -> io::Error {
    io::Error::from(io::ErrorKind::OutOfMemory)
}

/// Times each piece of work at so many nodes and at twice as many.
pub fn tell_all(rt: &HostRuntime, nodes: u32) -> io::Result<()> {
    let schema = schema(rt.alloc()).map_err(failed)?;
    let kernels = KernelList::new(rt.alloc());
    for work in &ALL {
        let once = best_round(rt, work, &schema, &kernels, nodes)?;
        let twice = best_round(rt, work, &schema, &kernels, nodes.saturating_mul(2))?;
        tell(rt, work.label(), nodes, once, twice)?;
    }
    Ok(())
}

/// The nanoseconds of the fastest round.
fn best_round(
    rt: &HostRuntime,
    work: &Work,
    schema: &Schema,
    kernels: &KernelList,
    nodes: u32,
) -> io::Result<u128> {
    let exprs = work.exprs(rt.alloc(), nodes).map_err(failed)?;
    let mut best = time_round(rt, work, schema, kernels, &exprs)?;
    for _round in 1..ROUNDS {
        best = best.min(time_round(rt, work, schema, kernels, &exprs)?);
    }
    Ok(best)
}

fn time_round(
    rt: &HostRuntime,
    work: &Work,
    schema: &Schema,
    kernels: &KernelList,
    exprs: &ExprList,
) -> io::Result<u128> {
    let start = Instant::now(rt)?;
    let seen = work
        .run(rt.alloc(), schema, kernels, exprs)
        .map_err(failed)?;
    let nanos = start.elapsed(rt)?.as_nanos();
    // What was seen of the answer is used, so that no work is left out.
    if seen == u64::MAX {
        return Err(io::Error::from(io::ErrorKind::Other));
    }
    Ok(nanos)
}

fn tell(rt: &HostRuntime, label: &str, nodes: u32, once: u128, twice: u128) -> io::Result<()> {
    let per_node = once / u128::from(nodes).max(1);
    let hundredths = twice.saturating_mul(100) / once.max(1);
    let whole = hundredths / 100;
    let rest = hundredths % 100;
    eprintln!(rt; "{label}: {per_node} ns a node, {whole}.{rest:02} times at twice as many")
}
