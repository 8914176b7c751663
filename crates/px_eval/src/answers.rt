//! Rows under names, as columns of one length.
ghost use Rattle.std.specs.Prelude.{◌≡◌, ◌⊎◌, ℕ, List, map, Some, None, IfOk, IfErr, IsSome};
ghost use Rattle.px_base.specs.Answer.{GivesOrMemory, GivesOr};
ghost use Rattle.px_semantics.specs.Frames.{heights};
ghost use Rattle.px_semantics.specs.Rows.{broadcast_lengths};
ghost use Rattle.px_expr.specs.declared.context.Context.TheVariants.{Select};
ghost use Rattle.px_expr.specs.Tree.{Tree};
ghost use Rattle.px_meaning.specs.Mean.{as_answer, answer_name, lined_up};
ghost use Rattle.px_meaning.specs.Names.{name};
ghost use Rattle.px_arena.specs.Denotes.{Denotes, IsIn};
ghost use Rattle.px_rules.specs.Plan.{places};
ghost use Rattle.px_eval.specs.Table.{values_of, rows_at};
ghost use Rattle.px_eval.specs.Answers.{column_of, FitsLength};
ghost use Rattle.px_eval.specs.Evaluated.{DenoteTrees};

use crate::table::{Rows, Table};
use px_arena::{Arena, Node};
use px_column::{Column, ColumnList, join_lengths};
use px_expr::Context;
use px_rules::name_at;
use px_types::{PlanError, SmallStr};
use std::alloc::Global;

/// The rows of a root under a name.
#[derive(Drop)]
pub struct Answer<'f> {
    name: SmallStr,
    rows: Rows<'f>,
}

/// The name of what the root denotes, as the context shows it.
fn answer_name_at(
    alloc: Global,
    arena: &Arena,
    root: Node,
    context: Context,
) -> Result<SmallStr, PlanError>
    requires { (t : Tree) × Denotes arena.now root.0 t }
    ensures { (t : Tree) → Denotes arena.now root.0 t → GivesOrMemory result (answer_name context (name t)) }
{
    match context {
        Context::Select => name_at(alloc, arena, root),
        Context::Filter => SmallStr::new(alloc, ""),
    }
}

fn answer_at<'f>(
    alloc: Global,
    arena: &Arena,
    root: Node,
    context: Context,
    table: &Table<'f>,
) -> Result<Answer<'f>, PlanError>
    requires denotes { (t : Tree) × Denotes arena.now root.0 t }
    requires filled { IsSome (rows_at table.now root.0) }
    ensures rows { IfOk result (λ a. Some (values_of a.rows) ≡ rows_at table.now root.0) }
    ensures name { IfOk result (λ a. (t : Tree) → Denotes arena.now root.0 t → a.name ≡ answer_name context (name t)) }
    ensures err { IfErr result (λ e. e ≡ PlanError.OutOfMemory) }
{
    let rows = table.share(root)?;
    let name = answer_name_at(alloc, arena, root, context)?;
    Ok(Answer { name, rows })
}

/// The rows of each root under the name that the context shows.
pub fn answers_of<'f>(
    alloc: Global,
    arena: &Arena,
    roots: &[Node],
    context: Context,
    table: &Table<'f>,
) -> Result<Vec<Answer<'f>>, PlanError>
    requires denote { (ts : List Tree) × DenoteTrees arena.now roots.now ts }
    requires filled { (n : ℕ) → IsIn n (places roots.now) → IsSome (rows_at table.now n) }
    ensures rows { IfOk result (λ all. map (λ a. Some (values_of a.rows)) all.items
        ≡ map (rows_at table.now) (places roots.now)) }
    ensures names { IfOk result (λ all. (ts : List Tree) → DenoteTrees arena.now roots.now ts
        → map (λ a. a.name) all.items ≡ map (λ t. answer_name context (name t)) ts) }
    ensures err { IfErr result (λ e. e ≡ PlanError.OutOfMemory) }
{
    let mut answers = Vec::new(alloc);
    for i in 0..roots.len() {
        match answer_at(alloc, arena, roots[i], context, table) {
            Ok(answer) => answers.push(answer)?,
            Err(e) => return Err(e),
        }
    }
    Ok(answers)
}

/// The length to which the lengths broadcast.
fn joined_length(answers: &[Answer<'_>]) -> Option<u32>
    ensures { result ≡ broadcast_lengths (heights (map column_of answers.now)) }
{
    let mut broadcast_length = 1;
    for answer in answers {
        broadcast_length = join_lengths(broadcast_length, answer.rows.buffer().len())?;
    }
    Some(broadcast_length)
}

/// The column of the answer, its one row so often where it has another length.
fn broadcast_answer(alloc: Global, answer: Answer<'_>, len: u32) -> Result<Column, PlanError>
    requires { FitsLength len (column_of answer) }
    ensures { GivesOrMemory result (as_answer Select len (column_of answer.entry)) }
{
    let buffer = answer.rows.buffer();
    if buffer.len() == len {
        return answer.rows.into_column(alloc, answer.name);
    }
    let wide = buffer.repeated(alloc, len)?;
    Ok(Column::new(answer.name, wide))
}

fn stretch_all(alloc: Global, answers: Vec<Answer<'_>>, len: u32) -> Result<ColumnList, PlanError>
    requires { broadcast_lengths (heights (map column_of answers.items)) ≡ Some len }
    ensures ok { IfOk result (λ l. l.entries ≡ map (as_answer Select len) (map column_of answers.entry.items)) }
    ensures err { IfErr result (λ e. e ≡ PlanError.OutOfMemory) }
{
    let mut columns = ColumnList::new(alloc);
    for answer in answers {
        columns.try_push(broadcast_answer(alloc, answer, len)?)?;
    }
    Ok(columns)
}

/// The columns, each broadcast to the common length of all. `ShapeMismatch` where they do not broadcast.
pub fn line_up(alloc: Global, answers: Vec<Answer<'_>>) -> Result<ColumnList, PlanError>
    ensures answer { GivesOr PlanError.ShapeMismatch (λ l. l.entries) result
        (lined_up Select (map column_of answers.entry.items)) }
{
    match joined_length(answers.as_slice()) {
        None => Err(PlanError::ShapeMismatch),
        Some(len) => stretch_all(alloc, answers, len),
    }
}
