//! The check of expressions, and of lists of them.
//!
//! Where an expression is dropped, `drop` is called by name: the proof of that is short, and at the end of
//! a scope it would go through each variant of the expression.
ghost use Rattle.std.specs.Prelude.{◌≡◌, [], ◌∷◌, ◌++◌, map, Ok, IfOk, IsErr};
ghost use Rattle.px_base.specs.Answer.{AnswersOrMemory, GivesSeen};
ghost use Rattle.px_types.specs.Schemas.{names_of};
ghost use Rattle.px_expr.specs.declared.context.Context.TheVariants.{Select};
ghost use Rattle.px_expr.specs.Tree.{Alias, Binary, Cast, Ternary, function_node, tree_of};
ghost use Rattle.px_expr.specs.Options.{options_of, joined};
ghost use Rattle.px_meaning.specs.Names.{name};
ghost use Rattle.px_meaning.specs.Check.{Typed, then_, found, all_results, find, as_asked, with_names};
ghost use Rattle.px_meaning.specs.Check as check;
ghost use Rattle.px_expr.specs.Plan.{catalog_of};
ghost use Rattle.px_coercion.specs.Found.{seen, options_in};
ghost use Rattle.px_coercion.specs.CheckedTree.{typed_of};
ghost use Rattle.px_check.specs.Inputs.{at_node, found_all, refused_over};

use px_coercion::{Checked, CheckedList, Found};
use px_expr::{AggExpr, Context, Expr, KernelList, Kernels, Plan, PlanContext};
use px_functions::FunctionExpr;
use px_types::{
    CastOptions, DataType, Field, FieldList, FunctionOptions, List, Operator, PlanError, Schema,
    SmallStr, ValueType,
};
use std::alloc::Global;

#[cycle(check)]
#[tactic(auto, unfolding(px_meaning::specs::Signatures::signature))]
fn check_found<K: Kernels>(
    alloc: Global,
    schema: &Schema,
    kernels: &K,
    expr: &Expr,
) -> Result<Found, PlanError>
    ensures answer { AnswersOrMemory seen result
        (found (catalog_of schema.now (K.definitions kernels.now)) (tree_of expr.now)) }
    ensures kept { IfOk result (λ f. options_in f ≡ options_of expr.now) }
{
    match expr {
        Expr::Column(name) => px_coercion::column(alloc, schema, name),
        Expr::Literal(value) => px_coercion::literal(alloc, value),
        Expr::Alias(input, name) => check_alias(alloc, schema, kernels, input.get(), name),
        Expr::BinaryExpr { left, op, right } => check_binary(
            alloc,
            schema,
            kernels,
            left.get(),
            *op,
            right.get(),
        ),
        Expr::Cast {
            expr,
            dtype,
            options,
        } => check_cast(alloc, schema, kernels, expr.get(), dtype, *options),
        Expr::Ternary {
            predicate,
            truthy,
            falsy,
        } => check_ternary(
            alloc,
            schema,
            kernels,
            predicate.get(),
            truthy.get(),
            falsy.get(),
        ),
        Expr::Function {
            input,
            function,
            options,
        } => check_function(alloc, schema, kernels, input.as_slice(), function, *options),
        Expr::AnonymousFunction {
            input,
            kernel: _,
            options: _,
        } => refuse_all(alloc, schema, kernels, input.as_slice()),
        Expr::Gather {
            expr,
            idx,
            returns_scalar: _,
        } => refuse_two(alloc, schema, kernels, expr.get(), idx.get()),
        Expr::Slice {
            input,
            offset,
            length,
        } => refuse_three(
            alloc,
            schema,
            kernels,
            input.get(),
            offset.get(),
            length.get(),
        ),
        Expr::Filter { input, by } => refuse_two(alloc, schema, kernels, input.get(), by.get()),
        Expr::Agg(agg) => refuse_agg(alloc, schema, kernels, agg),
        Expr::Explode(input) => refuse(alloc, schema, kernels, input.get()),
        Expr::Exclude(input, _) => refuse(alloc, schema, kernels, input.get()),
        Expr::Columns(_)
        | Expr::DtypeColumn(_)
        | Expr::IndexColumn(_)
        | Expr::Len
        | Expr::Nth(_)
        | Expr::Wildcard => Err(PlanError::InvalidOperation),
    }
}

#[cycle(check)]
#[tactic(auto, unfolding(px_meaning::specs::Signatures::signature))]
fn check_alias<K: Kernels>(
    alloc: Global,
    schema: &Schema,
    kernels: &K,
    input: &Expr,
    name: &SmallStr,
) -> Result<Found, PlanError>
    ensures answer { AnswersOrMemory seen result
        (find (catalog_of schema.now (K.definitions kernels.now)) (Alias name.now)
        (found (catalog_of schema.now (K.definitions kernels.now)) (tree_of input.now) ∷ [])) }
    ensures kept { IfOk result (λ f. options_in f ≡ options_of input.now) }
{
    let input = check_found(alloc, schema, kernels, input)?;
    px_coercion::alias(alloc, input, name)
}

#[cycle(check)]
#[tactic(auto, unfolding(px_meaning::specs::Signatures::signature))]
fn check_cast<K: Kernels>(
    alloc: Global,
    schema: &Schema,
    kernels: &K,
    input: &Expr,
    dtype: &DataType,
    options: CastOptions,
) -> Result<Found, PlanError>
    ensures answer { AnswersOrMemory seen result
        (find (catalog_of schema.now (K.definitions kernels.now)) (Cast dtype.now options)
        (found (catalog_of schema.now (K.definitions kernels.now)) (tree_of input.now) ∷ [])) }
    ensures kept { IfOk result (λ f. options_in f ≡ options_of input.now) }
{
    let input = check_found(alloc, schema, kernels, input)?;
    px_coercion::cast(alloc, input, dtype, options)
}

#[cycle(check)]
#[tactic(auto, unfolding(px_meaning::specs::Signatures::signature))]
fn check_binary<K: Kernels>(
    alloc: Global,
    schema: &Schema,
    kernels: &K,
    left: &Expr,
    op: Operator,
    right: &Expr,
) -> Result<Found, PlanError>
    ensures answer { AnswersOrMemory seen result
        (find (catalog_of schema.now (K.definitions kernels.now)) (Binary op)
        (found (catalog_of schema.now (K.definitions kernels.now)) (tree_of left.now)
        ∷ found (catalog_of schema.now (K.definitions kernels.now)) (tree_of right.now) ∷ [])) }
    ensures kept { IfOk result (λ f. options_in f ≡ options_of left.now ++ options_of right.now) }
{
    let (left, right) = check_two(alloc, schema, kernels, left, right)?;
    px_coercion::binary(alloc, left, op, right)
}

#[cycle(check)]
#[tactic(auto, unfolding(px_meaning::specs::Signatures::signature))]
fn check_ternary<K: Kernels>(
    alloc: Global,
    schema: &Schema,
    kernels: &K,
    predicate: &Expr,
    truthy: &Expr,
    falsy: &Expr,
) -> Result<Found, PlanError>
    ensures answer { AnswersOrMemory seen result
        (find (catalog_of schema.now (K.definitions kernels.now)) Ternary
        (found (catalog_of schema.now (K.definitions kernels.now)) (tree_of predicate.now)
        ∷ found (catalog_of schema.now (K.definitions kernels.now)) (tree_of truthy.now)
        ∷ found (catalog_of schema.now (K.definitions kernels.now)) (tree_of falsy.now) ∷ [])) }
    ensures kept { IfOk result (λ f. options_in f
        ≡ options_of predicate.now ++ options_of truthy.now ++ options_of falsy.now) }
{
    let predicate = check_found(alloc, schema, kernels, predicate)?;
    check_branches(alloc, schema, kernels, predicate, truthy, falsy)
}

#[cycle(check)]
#[tactic(auto, unfolding(px_meaning::specs::Signatures::signature))]
fn check_branches<K: Kernels>(
    alloc: Global,
    schema: &Schema,
    kernels: &K,
    predicate: Found,
    truthy: &Expr,
    falsy: &Expr,
) -> Result<Found, PlanError>
    ensures answer { AnswersOrMemory seen result
        (find (catalog_of schema.now (K.definitions kernels.now)) Ternary (Ok (seen predicate)
        ∷ found (catalog_of schema.now (K.definitions kernels.now)) (tree_of truthy.now)
        ∷ found (catalog_of schema.now (K.definitions kernels.now)) (tree_of falsy.now) ∷ [])) }
    ensures kept { IfOk result (λ f. options_in f
        ≡ options_in predicate ++ options_of truthy.now ++ options_of falsy.now) }
{
    match check_two(alloc, schema, kernels, truthy, falsy) {
        Ok((truthy, falsy)) => px_coercion::ternary(alloc, predicate, truthy, falsy),
        Err(e) => {
            drop(predicate);
            Err(e)
        }
    }
}

#[cycle(check)]
fn check_two<K: Kernels>(
    alloc: Global,
    schema: &Schema,
    kernels: &K,
    left: &Expr,
    right: &Expr,
) -> Result<(Found, Found), PlanError>
    ensures answer { AnswersOrMemory {B = check.Found
        × check.Found} (λ p. (seen p.0, seen p.1)) result
        (then_ (found (catalog_of schema.now (K.definitions kernels.now)) (tree_of left.now))
        (λ a. then_ (found (catalog_of schema.now (K.definitions kernels.now)) (tree_of right.now))
        (λ b. Ok (a, b)))) }
    ensures both { IfOk result (λ p. (found (catalog_of schema.now (K.definitions kernels.now)) (tree_of left.now)
        ≡ Ok (seen p.0)) × (found (catalog_of schema.now (K.definitions kernels.now)) (tree_of right.now)
        ≡ Ok (seen p.1))) }
    ensures kept { IfOk result (λ p. (options_in p.0 ≡ options_of left.now) × (options_in p.1 ≡ options_of right.now)) }
{
    let left = check_found(alloc, schema, kernels, left)?;
    match check_found(alloc, schema, kernels, right) {
        Ok(right) => Ok((left, right)),
        Err(e) => {
            drop(left);
            Err(e)
        }
    }
}

#[cycle(check)]
#[tactic(auto, unfolding(px_meaning::specs::Signatures::signature))]
fn check_function<K: Kernels>(
    alloc: Global,
    schema: &Schema,
    kernels: &K,
    input: &[Expr],
    function: &FunctionExpr,
    options: FunctionOptions,
) -> Result<Found, PlanError>
    ensures answer { AnswersOrMemory seen result
        (then_ (found_all (catalog_of schema.now (K.definitions kernels.now)) (map tree_of input.now))
        (at_node (catalog_of schema.now (K.definitions kernels.now)) (function_node function.now))) }
    ensures kept { IfOk result (λ f. options_in f ≡ options ∷ joined (map options_of input.now)) }
{
    let inputs = check_inputs(alloc, schema, kernels, input)?;
    px_coercion::function(alloc, inputs, function, options)
}

// A fault of an input comes before that of a node that is refused.
#[cycle(check)]
fn refuse<K: Kernels>(
    alloc: Global,
    schema: &Schema,
    kernels: &K,
    input: &Expr,
) -> Result<Found, PlanError>
    ensures answer { AnswersOrMemory seen result
        (refused_over (found (catalog_of schema.now (K.definitions kernels.now)) (tree_of input.now) ∷ [])) }
    ensures refused { IsErr result }
{
    drop(check_found(alloc, schema, kernels, input)?);
    Err(PlanError::InvalidOperation)
}

#[cycle(check)]
#[tactic(auto, using(crate::proofs::Steps::refused_more))]
fn refuse_two<K: Kernels>(
    alloc: Global,
    schema: &Schema,
    kernels: &K,
    input: &Expr,
    other: &Expr,
) -> Result<Found, PlanError>
    ensures answer { AnswersOrMemory seen result
        (refused_over (found (catalog_of schema.now (K.definitions kernels.now)) (tree_of input.now)
        ∷ found (catalog_of schema.now (K.definitions kernels.now)) (tree_of other.now) ∷ [])) }
    ensures refused { IsErr result }
{
    drop(check_found(alloc, schema, kernels, input)?);
    refuse(alloc, schema, kernels, other)
}

#[cycle(check)]
#[tactic(auto, using(crate::proofs::Steps::refused_more))]
fn refuse_three<K: Kernels>(
    alloc: Global,
    schema: &Schema,
    kernels: &K,
    input: &Expr,
    other: &Expr,
    last: &Expr,
) -> Result<Found, PlanError>
    ensures answer { AnswersOrMemory seen result
        (refused_over (found (catalog_of schema.now (K.definitions kernels.now)) (tree_of input.now)
        ∷ found (catalog_of schema.now (K.definitions kernels.now)) (tree_of other.now)
        ∷ found (catalog_of schema.now (K.definitions kernels.now)) (tree_of last.now) ∷ [])) }
    ensures refused { IsErr result }
{
    drop(check_found(alloc, schema, kernels, input)?);
    refuse_two(alloc, schema, kernels, other, last)
}

// No aggregate has a signature yet.
#[cycle(check)]
fn refuse_agg<K: Kernels>(
    alloc: Global,
    schema: &Schema,
    kernels: &K,
    agg: &AggExpr,
) -> Result<Found, PlanError>
    ensures answer { AnswersOrMemory seen result
        (found (catalog_of schema.now (K.definitions kernels.now)) (tree_of (Expr.Agg agg.now))) }
    ensures refused { IsErr result }
{
    match agg {
        AggExpr::Quantile {
            expr,
            quantile,
            method: _,
        } => refuse_two(alloc, schema, kernels, expr.get(), quantile.get()),
        AggExpr::Min(input) => refuse(alloc, schema, kernels, input.get()),
        AggExpr::Max(input) => refuse(alloc, schema, kernels, input.get()),
        AggExpr::Median(input) => refuse(alloc, schema, kernels, input.get()),
        AggExpr::NUnique(input) => refuse(alloc, schema, kernels, input.get()),
        AggExpr::First(input) => refuse(alloc, schema, kernels, input.get()),
        AggExpr::Last(input) => refuse(alloc, schema, kernels, input.get()),
        AggExpr::Mean(input) => refuse(alloc, schema, kernels, input.get()),
        AggExpr::Implode(input) => refuse(alloc, schema, kernels, input.get()),
        AggExpr::Sum(input) => refuse(alloc, schema, kernels, input.get()),
        AggExpr::AggGroups(input) => refuse(alloc, schema, kernels, input.get()),
        AggExpr::Count(input, _) => refuse(alloc, schema, kernels, input.get()),
        AggExpr::Std(input, _) => refuse(alloc, schema, kernels, input.get()),
        AggExpr::Var(input, _) => refuse(alloc, schema, kernels, input.get()),
    }
}

#[cycle(check)]
fn refuse_all<K: Kernels>(
    alloc: Global,
    schema: &Schema,
    kernels: &K,
    input: &[Expr],
) -> Result<Found, PlanError>
    ensures answer { AnswersOrMemory seen result
        (then_ (found_all (catalog_of schema.now (K.definitions kernels.now)) (map tree_of input.now))
        (λ _. Err PlanError.InvalidOperation)) }
    ensures refused { IsErr result }
{
    check_inputs(alloc, schema, kernels, input)?;
    Err(PlanError::InvalidOperation)
}

#[cycle(check)]
#[tactic(auto, using(crate::proofs::Steps::found_step))]
fn check_inputs<K: Kernels>(
    alloc: Global,
    schema: &Schema,
    kernels: &K,
    exprs: &[Expr],
) -> Result<Vec<Found>, PlanError>
    ensures answer { AnswersOrMemory (λ l. map seen l.items) result
        (found_all (catalog_of schema.now (K.definitions kernels.now)) (map tree_of exprs.now)) }
    ensures kept { IfOk result (λ l. map options_in l.items ≡ map options_of exprs.now) }
{
    let mut inputs = Vec::new(alloc);
    for expr in exprs {
        inputs.push(check_found(alloc, schema, kernels, expr)?)?;
    }
    Ok(inputs)
}

// The checked tree with its type and name, or the first fault.
#[tactic(auto, using(crate::proofs::Lowerable::default_type_lowerable))]
fn check_whole<K: Kernels>(
    alloc: Global,
    schema: &Schema,
    kernels: &K,
    expr: &Expr,
) -> Result<Checked, PlanError>
    ensures answer { AnswersOrMemory typed_of result
        (check.check (catalog_of schema.now (K.definitions kernels.now)) (tree_of expr.now)) }
    ensures kept { IfOk result (λ c. options_of c.tree ≡ options_of expr.now) }
{
    let found = check_found(alloc, schema, kernels, expr)?;
    px_coercion::with_default_type(alloc, found)
}

// The checked tree, where it has what the context asks for.
fn asked(context: Context, checked: Checked) -> Result<Checked, PlanError>
    ensures answer { AnswersOrMemory typed_of result (as_asked context (typed_of checked)) }
    ensures kept { IfOk result (λ c. options_of c.tree ≡ options_of checked.tree) }
{
    match context {
        Context::Select => Ok(checked),
        Context::Filter => match checked.value_type() {
            ValueType::Boolean => Ok(checked),
            _ => {
                drop(checked);
                Err(PlanError::InvalidOperation)
            }
        },
    }
}

// The checked tree, a mask where the context asks for one.
fn check_asked<K: Kernels>(
    alloc: Global,
    schema: &Schema,
    kernels: &K,
    context: Context,
    expr: &Expr,
) -> Result<Checked, PlanError>
    ensures answer { AnswersOrMemory typed_of result
        (then_ (check.check (catalog_of schema.now (K.definitions kernels.now)) (tree_of expr.now))
        (as_asked context)) }
    ensures kept { IfOk result (λ c. options_of c.tree ≡ options_of expr.now) }
{
    let checked = check_whole(alloc, schema, kernels, expr)?;
    asked(context, checked)
}

// The checked trees, or the first fault of an expression.
fn check_each<K: Kernels>(
    alloc: Global,
    schema: &Schema,
    kernels: &K,
    context: Context,
    exprs: &[Expr],
) -> Result<CheckedList, PlanError>
    ensures answer { AnswersOrMemory (λ l. map typed_of l.entries) result (all_results (map
        (λ t. then_ (check.check (catalog_of schema.now (K.definitions kernels.now)) t) (as_asked context))
        (map tree_of exprs.now))) }
    ensures kept { IfOk result (λ l. map (λ c. options_of c.tree) l.entries ≡ map options_of exprs.now) }
{
    let mut list = List::new(alloc);
    for expr in exprs {
        list.try_push(check_asked(alloc, schema, kernels, context, expr)?)?;
    }
    Ok(list)
}

// The names and the types of checked expressions.
fn fields_of(alloc: Global, checked: &[Checked]) -> Result<FieldList, PlanError>
    ensures { GivesSeen (λ l. names_of l.entries) result (map (λ (t : Typed). name t.tree) (map typed_of checked.now)) }
{
    let mut fields = List::new(alloc);
    for one in checked {
        let name = one.name().try_clone(alloc)?;
        fields.try_push(Field::new(name, one.value_type().dtype()))?;
    }
    Ok(fields)
}

// Nothing, or the first name that comes twice.
#[tactic(auto, using(crate::proofs::Steps::names_kept, crate::proofs::Steps::names_refused))]
fn distinct_names(alloc: Global, checked: &[Checked]) -> Result<(), PlanError>
    ensures { AnswersOrMemory (λ _. map typed_of checked.now) result (with_names Select (map typed_of checked.now)) }
{
    let fields = fields_of(alloc, checked)?;
    let _schema = Schema::from_fields(alloc, fields.as_slice())?;
    Ok(())
}

// The list, if in a select context its names are distinct.
fn named(alloc: Global, context: Context, list: CheckedList) -> Result<CheckedList, PlanError>
    ensures answer { AnswersOrMemory (λ l. map typed_of l.entries) result
        (with_names context (map typed_of list.entries)) }
    ensures kept { IfOk result (λ l. l ≡ list) }
{
    match context {
        Context::Select => {
            distinct_names(alloc, list.as_slice())?;
            Ok(list)
        }
        Context::Filter => Ok(list),
    }
}

/// The checked tree with its type and name, or the first fault. The options stay.
pub fn check_expr(
    alloc: Global,
    schema: &Schema,
    kernels: &KernelList,
    expr: &Expr,
) -> Result<Checked, PlanError>
    ensures answer { AnswersOrMemory typed_of result
        (check.check (catalog_of schema.now (⟦<KernelList as Kernels>⟧.definitions kernels.now)) (tree_of expr.now)) }
    ensures kept { IfOk result (λ c. options_of c.tree ≡ options_of expr.now) }
{
    check_whole(alloc, schema, kernels, expr)
}

/// The checked trees, or the first fault. In a filter context an expression that is not Boolean is
/// refused at its place; in a select context a name that comes twice is refused after all other
/// faults.
pub fn check_list(
    alloc: Global,
    plan: &PlanContext<'_>,
    exprs: &[Expr],
) -> Result<CheckedList, PlanError>
    ensures answer { AnswersOrMemory (λ l. map typed_of l.entries) result
        (check.check_list (⟦<PlanContext<'static> as Plan>⟧.catalog plan.now) plan.now.context
        (map tree_of exprs.now)) }
    ensures kept { IfOk result (λ l. map (λ c. options_of c.tree) l.entries ≡ map options_of exprs.now) }
{
    let list = check_each(alloc, plan.schema, plan.kernels, plan.context, exprs)?;
    named(alloc, plan.context, list)
}
