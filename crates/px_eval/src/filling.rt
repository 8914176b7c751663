//! Places are evaluated, each once.
ghost use Rattle.std.specs.Prelude.{◌≡◌, ◌⊎◌, ℕ, length, IfOk, IfErr, IsSome};
ghost use Rattle.px_arena.specs.Denotes.{IsIn, inputs_of};
ghost use Rattle.px_meaning.specs.Schema.{Fits, schema_of};
ghost use Rattle.px_rules.specs.Plan.{IsCheckedAt, places};
ghost use Rattle.px_eval.specs.Own.{frame_catalog};
ghost use Rattle.px_eval.specs.Table.{rows_at};
ghost use Rattle.px_eval.specs.Order.{last_reader};
ghost use Rattle.px_eval.specs.Fills.{Dropped, HoldsRoots, RootHasFault, HasTicked};

use crate::order::{Order, order_of};
use crate::own::own_rows;
use crate::table::Table;
use px_arena::{AExpr, Arena, Node};
use px_column::Frame;
use px_expr::Kernels;
use px_types::{PlanError, Steps};
use std::alloc::Global;
use std::sync::ledger::Ledger;

/// Drops the rows of those inputs that the place at the position is the last to read.
fn drop_inputs(order: &Order, expr: &AExpr, position: usize, table: &mut Table<'_>)
    requires inputs { (m : ℕ) → IsIn m (inputs_of expr.now) → IsSome (last_reader order.now.needed.items m) }
    requires same_length { length table.old ≡ length order.now.needed.items }
    ensures { Dropped order.now.needed.items position (inputs_of expr.now) table.old table.new }
{
    for i in 0..expr.input_count() {
        let input = expr.input(i);
        if order.is_last(input, position) {
            table.clear(input);
        }
    }
}

/// A table of the rows of all roots. Each place that a root reaches is evaluated once, after its
/// inputs, and costs one step. At any time the table holds only rows that a later place or a root
/// reads.
pub fn fill_all<'f, K: Kernels, L: Ledger>(
    alloc: Global,
    arena: &'f Arena,
    roots: &[Node],
    frame: &'f Frame,
    kernels: &K,
    steps: &mut Steps<L>,
) -> Result<Table<'f>, PlanError>
    requires fits { Fits frame.now (schema_of frame.now) }
    requires checked { (n : ℕ) → IsIn n (places roots.now)
        → IsCheckedAt (frame_catalog (K.definitions kernels.now) frame.now) arena.now n }
    ensures means { IfOk result (λ table. HoldsRoots (K.definitions kernels.now) frame.now arena.now
        (places roots.now) table) }
    ensures only { IfOk result (λ table. (n : ℕ) → IsSome (rows_at table n) → IsIn n (places roots.now)) }
    ensures err { IfErr result (λ e. (e ≡ PlanError.OutOfMemory)
        ⊎ RootHasFault (K.definitions kernels.now) frame.now arena.now (places roots.now) e) }
    ensures ticks { HasTicked arena.now (places roots.now) steps.old steps.new }
{
    let order = match order_of(alloc, arena, roots) {
        Ok(order) => order,
        Err(e) => return Err(e),
    };
    let mut table = match Table::new(alloc, arena.len()) {
        Ok(table) => table,
        Err(e) => return Err(e),
    };
    for position in 0..order.len() {
        let node = order.at(position);
        let expr = arena.get(node);
        match own_rows(alloc, frame, kernels, expr, &table) {
            Ok(rows) => table.put(node, rows),
            Err(e) => return Err(e),
        }
        steps.tick();
        drop_inputs(&order, expr, position, &mut table);
    }
    Ok(table)
}
