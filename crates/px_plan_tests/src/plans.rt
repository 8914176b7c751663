ghost use Rattle.std.specs.Prelude.{◌≡◌, ◌<◌};
ghost use Rattle.px_types.specs.declared.value_type.ValueType.TheVariants.{Boolean};
ghost use Rattle.px_expr.specs.Tree.{tree_of};
ghost use Rattle.px_meaning.specs.Check.{HasType};
ghost use Rattle.px_rules.specs.Plan.{AreCheckedAt, places};

use px_arena::AExpr;
use px_check::{Checked, check_list};
use px_expr::{Expr, Plan};
use px_plan::{
    AllRules, Arena, Context, KernelList, Node, NodeList, OptimizationRule, PlanContext,
    SimplifyBooleanRule, lower, optimize, optimize_loop,
};
use px_texts::{
    fields_of, read_text, write_cast, write_function, write_literal, write_operator, write_word,
};
use px_types::{Operator, PlanError, Schema, Steps, ValueType};
use std::alloc::Global;
use std::marker::Brand;
use std::sync::ledger::{Blank, Ledger};
use std::test::Fail;

const FIELDS: &[(&str, ValueType)] = &[
    ("a", ValueType::Int64),
    ("b", ValueType::Int64),
    ("c", ValueType::Int8),
    ("d", ValueType::Int8),
    ("p", ValueType::Boolean),
    ("q", ValueType::Boolean),
];

fn schema(alloc: Global) -> Result<Schema, PlanError> {
    let fields = fields_of(alloc, FIELDS)?;
    Schema::from_fields(alloc, fields.as_slice())
}

fn write_own(alloc: Global, text: &mut String, expr: &AExpr) -> Result<(), PlanError> {
    match expr {
        AExpr::Alias(_, name) => {
            write_word(text, ".")?;
            write_word(text, name.as_str())
        }
        AExpr::Column(name) => write_word(text, name.as_str()),
        AExpr::Literal(value) => write_literal(alloc, text, value),
        AExpr::BinaryExpr { op, .. } => write_operator(alloc, text, *op),
        AExpr::Cast { dtype, options, .. } => write_cast(alloc, text, dtype, *options),
        AExpr::Function { function, .. } => write_function(alloc, text, function),
        _ => write_word(text, "other"),
    }
}

// Writes the text of what the place denotes, down to a depth.
fn write_node(
    alloc: Global,
    text: &mut String,
    arena: &Arena,
    node: Node,
    depth: u8,
) -> Result<(), PlanError> {
    if depth == 0 || node.0 >= arena.len() {
        return Err(PlanError::OutOfBounds);
    }
    let expr = arena.get(node);
    for i in 0..expr.input_count() {
        write_node(alloc, text, arena, expr.input(i), depth - 1)?;
    }
    write_own(alloc, text, expr)
}

// The texts of what the places denote, and the number of rewrites.
fn read_back(
    alloc: Global,
    arena: &Arena,
    roots: &[Node],
    rewrites: u64,
) -> Result<String, PlanError> {
    let mut text = String::new(alloc);
    for root in roots {
        write_node(alloc, &mut text, arena, *root, 9)?;
    }
    Ok(format!(in alloc; "{text}, {rewrites}")?)
}

fn optimized_text<L: Ledger>(
    alloc: Global,
    schema: &Schema,
    context: Context,
    kernels: &KernelList,
    exprs: &[Expr],
    blank: Blank,
) -> Result<String, PlanError>
    requires name { blank.name ≡ L.name }
    requires parts { blank.parts ≡ L.parts }
    requires one { 0 < L.parts }
{
    let mut steps: Steps<L> = Steps::new(blank);
    let optimized = optimize(alloc, schema, exprs, context, kernels, &mut steps)?;
    let roots = optimized.roots().as_slice();
    read_back(alloc, optimized.arena(), roots, optimized.rewrites())
}

fn answer(
    alloc: Global,
    schema: &Schema,
    context: Context,
    text: &str,
) -> Result<String, PlanError> {
    let exprs = read_text(alloc, text)?;
    let kernels = KernelList::new(alloc);
    let blank = Blank::new(1);
    optimized_text::<Brand>(alloc, schema, context, &kernels, exprs.as_slice(), blank)
}

// The first of the texts that becomes something else than what stands beside it.
fn first_wrong(
    alloc: Global,
    context: Context,
    cases: &[(&str, &str)],
) -> Result<String, PlanError> {
    let schema = schema(alloc)?;
    for case in cases {
        let answer = answer(alloc, &schema, context, case.0)?;
        if answer.as_str() != case.1 {
            return Ok(answer);
        }
    }
    Ok(String::new(alloc))
}

const FOLDED: &[(&str, &str)] = &[
    ("100:Int8 negate", "-100:Int8, 1"),
    ("-128:Int8 negate", "-128:Int8, 1"),
    ("100:Int8 100:Int8 +", "-56:Int8, 1"),
    ("100:Int8 -100:Int8 -", "-56:Int8, 1"),
    ("100:Int8 3:Int8 *", "44:Int8, 1"),
    ("-7:Int8 2:Int8 /", "-4:Int8, 1"),
    ("-7:Int8 2:Int8 //", "-4:Int8, 1"),
    ("-7:Int8 2:Int8 %", "1:Int8, 1"),
    ("1:Int8 2:Int8 ==", "false, 1"),
    ("1:Int8 2:Int8 !=", "true, 1"),
    ("1:Int8 2:Int8 eq_missing", "false, 1"),
    ("1:Int8 2:Int8 neq_missing", "true, 1"),
    ("-1:Int8 1:Int8 <", "true, 1"),
    ("2:Int8 2:Int8 <=", "true, 1"),
    ("-1:Int8 1:Int8 >", "false, 1"),
    ("1:Int8 2:Int8 >=", "false, 1"),
    ("false true <", "true, 1"),
    ("true false &", "false, 1"),
    ("true false &&", "false, 1"),
    ("true false |", "true, 1"),
    ("true false ||", "true, 1"),
    ("true false ^", "true, 1"),
    ("true not", "false, 1"),
    ("false not", "true, 1"),
    ("1:Int8 2:Int8 + 3:Int8 +", "6:Int8, 2"),
];

// Literals of one type are folded, and integers wrap.
#[test]
fn literals_are_folded(rt: HostRuntime) -> Result<(), Fail> {
    assert_eq!(rt;
        first_wrong(rt.alloc(), Context::Select, FOLDED)?.as_str(),
        ""
    );
    Ok(())
}

const SIMPLIFIED: &[(&str, &str)] = &[
    ("p true &", "p, 1"),
    ("p false |", "p, 1"),
    ("p q & not", "p not q not |, 1"),
    ("p q && not", "p not q not |, 1"),
    ("p q | not", "p not q not &, 1"),
    ("p q || not", "p not q not &, 1"),
    ("c d & not", "c not d not |, 1"),
    ("c d | not", "c not d not &, 1"),
    ("p not not", "p, 1"),
    ("a is_null not", "a is_not_null, 1"),
    ("a is_not_null not", "a is_null, 1"),
    ("a b == not", "a b !=, 1"),
    ("a b != not", "a b ==, 1"),
    ("a b < not", "a b >=, 1"),
    ("a b <= not", "a b >, 1"),
    ("a b > not", "a b <=, 1"),
    ("a b >= not", "a b <, 1"),
    ("a b * b +", "b a b fma . a, 1"),
    ("a a b * +", "a a b fma, 1"),
    ("a a b * -", "a a b fsm, 1"),
    ("a b * a -", "a b a fms, 1"),
    ("a b * a b * +", "a b * a b fma . a, 1"),
    ("a b * a b * -", "a b * a b fsm, 1"),
];

// One rewrite applies.
#[test]
fn nodes_are_rewritten(rt: HostRuntime) -> Result<(), Fail> {
    assert_eq!(rt;
        first_wrong(rt.alloc(), Context::Select, SIMPLIFIED)?.as_str(),
        ""
    );
    Ok(())
}

const KEPT: &[(&str, &str)] = &[
    ("true p &", "true p &, 0"),
    ("false p |", "false p |, 0"),
    ("p false &", "p false &, 0"),
    ("false p &", "false p &, 0"),
    ("p true |", "p true |, 0"),
    ("true p |", "true p |, 0"),
    ("p true &&", "p true &&, 0"),
    ("p false ||", "p false ||, 0"),
    ("p true ^", "p true ^, 0"),
    (
        "s:Boolean(false,true) false &",
        "s:Boolean(false,true) false &, 0",
    ),
    (
        "false s:Boolean(false,true) &",
        "false s:Boolean(false,true) &, 0",
    ),
    (
        "s:Boolean(false,true) true |",
        "s:Boolean(false,true) true |, 0",
    ),
    (
        "true s:Boolean(false,true) |",
        "true s:Boolean(false,true) |, 0",
    ),
    ("c negate", "c negate, 0"),
    ("n:Int8(1,2) negate", "n:Int8(1,2) negate, 0"),
    ("c 2:Int8 +", "c 2:Int8 +, 0"),
    ("1:Int8 n:Int8(1,2) +", "1:Int8 n:Int8(1,2) +, 0"),
    (
        "1:Int8 2147483648 *",
        "1:Int8 as_Int64 2147483648:Int64 *, 0",
    ),
    ("c 2:Int8 /", "c 2:Int8 /, 0"),
    ("7:Int8 0:Int8 /", "7:Int8 0:Int8 /, 0"),
    ("7:Int8 0:Int8 //", "7:Int8 0:Int8 //, 0"),
    ("7:Int8 0:Int8 %", "7:Int8 0:Int8 %, 0"),
    ("1:Int8 c <", "1:Int8 c <, 0"),
    ("null null ==", "null null ==, 0"),
    (
        "s:Boolean(false,true) true ==",
        "s:Boolean(false,true) true ==, 0",
    ),
    ("6:Int8 3:Int8 &", "6:Int8 3:Int8 &, 0"),
    (
        "s:Boolean(false,true) true ^",
        "s:Boolean(false,true) true ^, 0",
    ),
    ("p q & .k not", "p q & . k not, 0"),
    ("p q | .k not", "p q | . k not, 0"),
    ("p q ^ not", "p q ^ not, 0"),
    ("a b eq_missing not", "a b eq_missing not, 0"),
    ("a b neq_missing not", "a b neq_missing not, 0"),
    ("c not negate", "c not negate, 0"),
    ("p not .k not", "p not . k not, 0"),
    ("7:Int8 not", "7:Int8 not, 0"),
    ("s:Boolean(false,true) not", "s:Boolean(false,true) not, 0"),
    ("a not is_null", "a not is_null, 0"),
    ("a not is_not_null", "a not is_not_null, 0"),
    ("a b < .k not", "a b < . k not, 0"),
    ("a b <= .k not", "a b <= . k not, 0"),
    ("a b > .k not", "a b > . k not, 0"),
    ("a b >= .k not", "a b >= . k not, 0"),
    ("a b * a /", "a b * a /, 0"),
    ("c 2 * d +", "c 2:Int8 * d +, 0"),
    ("c d * 2:Int8 +", "c d * 2:Int8 +, 0"),
    ("c d 2:Int8 + * d +", "c d 2:Int8 + * d +, 0"),
    ("d c 2:Int8 * +", "d c 2:Int8 * +, 0"),
    ("n:Int8(1,2) c d * +", "n:Int8(1,2) c d * +, 0"),
    ("c 2:Int8 + c d * -", "c 2:Int8 + c d * -, 0"),
    ("c d * 2:Int8 -", "c d * 2:Int8 -, 0"),
    ("c n:Int8(1,2) * d -", "c n:Int8(1,2) * d -, 0"),
];

// No rewrite applies.
#[test]
fn other_nodes_stay(rt: HostRuntime) -> Result<(), Fail> {
    assert_eq!(rt;
        first_wrong(rt.alloc(), Context::Select, KEPT)?.as_str(),
        ""
    );
    Ok(())
}

const UNCOVERED: &[(&str, &str)] = &[
    ("p true & to_Int8 c * d +", "d p to_Int8 c fma . p, 2"),
    ("a b < c is_null & not", "a b >= c is_not_null |, 3"),
    ("p not not q false |", "p q, 2"),
];

// A rewrite uncovers another one above or below it, and in other expressions of the list.
#[test]
fn rewrites_go_on_until_none_applies(rt: HostRuntime) -> Result<(), Fail> {
    assert_eq!(rt;
        first_wrong(rt.alloc(), Context::Select, UNCOVERED)?.as_str(),
        ""
    );
    Ok(())
}

const FILTERED: &[(&str, &str)] = &[
    ("true p &", "p, 1"),
    ("false p |", "p, 1"),
    ("p true q & |", "p q |, 1"),
    ("false p &", "false p &, 0"),
    ("true p |", "true p |, 0"),
    ("true p &&", "true p &&, 0"),
    ("false p ||", "false p ||, 0"),
];

// In a filter a Boolean is dropped on the left as well.
#[test]
fn masks_have_no_name_to_keep(rt: HostRuntime) -> Result<(), Fail> {
    assert_eq!(rt;
        first_wrong(rt.alloc(), Context::Filter, FILTERED)?.as_str(),
        ""
    );
    Ok(())
}

fn rewritten<R: OptimizationRule, L: Ledger>(
    alloc: Global,
    plan: &PlanContext<'_>,
    rules: &mut R,
    arena: &mut Arena,
    roots: &NodeList,
    blank: Blank,
) -> Result<String, PlanError>
    requires checked { AreCheckedAt (⟦<PlanContext<'static> as Plan>⟧.catalog plan.now) arena.old
        (places roots.now.entries) }
    requires name { blank.name ≡ L.name }
    requires parts { blank.parts ≡ L.parts }
    requires one { 0 < L.parts }
{
    let mut steps: Steps<L> = Steps::new(blank);
    let rewrites = optimize_loop(alloc, arena, roots, rules, plan, &mut steps)?;
    read_back(alloc, arena, roots.as_slice(), rewrites)
}

// The mask twice as a root, at one place.
fn twice<R: OptimizationRule, L: Ledger>(
    alloc: Global,
    plan: &PlanContext<'_>,
    rules: &mut R,
    mask: &Checked,
    blank: Blank,
) -> Result<String, PlanError>
    requires mask { HasType (⟦<PlanContext<'static> as Plan>⟧.catalog plan.now) (tree_of mask.now.tree) Boolean }
    requires name { blank.name ≡ L.name }
    requires parts { blank.parts ≡ L.parts }
    requires one { 0 < L.parts }
{
    let mut arena = Arena::new(alloc);
    let place = lower(alloc, &mut arena, mask)?;
    let mut roots = NodeList::new(alloc);
    roots.try_push(place)?;
    roots.try_push(place)?;
    rewritten::<R, L>(alloc, plan, rules, &mut arena, &roots, blank)
}

// The mask on both sides of an operator, at one place.
fn beside_itself<L: Ledger>(
    alloc: Global,
    plan: &PlanContext<'_>,
    mask: &Checked,
    blank: Blank,
) -> Result<String, PlanError>
    requires mask { HasType (⟦<PlanContext<'static> as Plan>⟧.catalog plan.now) (tree_of mask.now.tree) Boolean }
    requires name { blank.name ≡ L.name }
    requires parts { blank.parts ≡ L.parts }
    requires one { 0 < L.parts }
{
    let mut arena = Arena::new(alloc);
    let place = lower(alloc, &mut arena, mask)?;
    let both = arena.add(AExpr::BinaryExpr {
        left: place,
        op: Operator::And,
        right: place,
    })?;
    let mut roots = NodeList::new(alloc);
    roots.try_push(both)?;
    rewritten::<AllRules, L>(alloc, plan, &mut AllRules {}, &mut arena, &roots, blank)
}

// Where a mask stands, and which rules rewrite it.
#[derive(Clone, Copy)]
enum Shared {
    TwiceByAllRules,
    TwiceByBooleanRule,
    BesideItself,
}

fn twice_by_boolean_rule(
    alloc: Global,
    plan: &PlanContext<'_>,
    mask: &Checked,
) -> Result<String, PlanError>
    requires { HasType (⟦<PlanContext<'static> as Plan>⟧.catalog plan.now) (tree_of mask.now.tree) Boolean }
{
    let mut rule = SimplifyBooleanRule {};
    twice::<SimplifyBooleanRule, Brand>(alloc, plan, &mut rule, mask, Blank::new(1))
}

fn shared_mask(
    alloc: Global,
    plan: &PlanContext<'_>,
    exprs: &[Expr],
    shared: Shared,
) -> Result<String, PlanError> {
    let checked = check_list(alloc, plan, exprs)?;
    let Some(mask) = checked.get(0) else {
        return Err(PlanError::OutOfBounds);
    };
    let ValueType::Boolean = mask.value_type() else {
        return Err(PlanError::InvalidOperation);
    };
    match shared {
        Shared::TwiceByAllRules => {
            twice::<AllRules, Brand>(alloc, plan, &mut AllRules {}, mask, Blank::new(1))
        }
        Shared::TwiceByBooleanRule => twice_by_boolean_rule(alloc, plan, mask),
        Shared::BesideItself => beside_itself::<Brand>(alloc, plan, mask, Blank::new(1)),
    }
}

fn shared_answer(
    alloc: Global,
    context: Context,
    text: &str,
    shared: Shared,
) -> Result<String, PlanError> {
    let schema = schema(alloc)?;
    let exprs = read_text(alloc, text)?;
    let kernels = KernelList::new(alloc);
    let plan = PlanContext {
        schema: &schema,
        kernels: &kernels,
        context,
    };
    shared_mask(alloc, &plan, exprs.as_slice(), shared)
}

fn first_wrong_shared(
    alloc: Global,
    context: Context,
    shared: Shared,
    cases: &[(&str, &str)],
) -> Result<String, PlanError> {
    for case in cases {
        let answer = shared_answer(alloc, context, case.0, shared)?;
        if answer.as_str() != case.1 {
            return Ok(answer);
        }
    }
    Ok(String::new(alloc))
}

// A place that is two roots is rewritten once.
#[test]
fn shared_roots_are_rewritten_once(rt: HostRuntime) -> Result<(), Fail> {
    assert_eq!(rt;
        first_wrong_shared(
            rt.alloc(),
            Context::Filter,
            Shared::TwiceByAllRules,
            &[("p not not", "p p, 1")],
        )?
        .as_str(),
        ""
    );
    Ok(())
}

// A place that is two inputs is rewritten once.
#[test]
fn shared_inputs_are_rewritten_once(rt: HostRuntime) -> Result<(), Fail> {
    assert_eq!(rt;
        first_wrong_shared(
            rt.alloc(),
            Context::Filter,
            Shared::BesideItself,
            &[("p not not", "p p &, 1")],
        )?
        .as_str(),
        ""
    );
    Ok(())
}

const BOOLEAN: &[(&str, &str)] = &[
    ("true false &", "false false, 1"),
    ("false true &", "false false, 1"),
    ("false false &", "false false, 1"),
    ("false true |", "true true, 1"),
    ("true false |", "true true, 1"),
    ("true true |", "true true, 1"),
    ("p false &", "p false & p false &, 0"),
    ("false p &", "false p & false p &, 0"),
    ("p true |", "p true | p true |, 0"),
    ("true p |", "true p | true p |, 0"),
    (
        "s:Boolean(false,true) false &",
        "s:Boolean(false,true) false & s:Boolean(false,true) false &, 0",
    ),
    (
        "false s:Boolean(false,true) &",
        "false s:Boolean(false,true) & false s:Boolean(false,true) &, 0",
    ),
    ("p not not", "p not not p not not, 0"),
];

// The rule of Boolean literals folds a literal beside another, and leaves the rest to other rules.
#[test]
fn the_boolean_rule_rewrites_alone(rt: HostRuntime) -> Result<(), Fail> {
    assert_eq!(rt;
        first_wrong_shared(
            rt.alloc(),
            Context::Select,
            Shared::TwiceByBooleanRule,
            BOOLEAN,
        )?
        .as_str(),
        ""
    );
    Ok(())
}

const BOOLEAN_MASKS: &[(&str, &str)] = &[
    ("true p &", "p p, 1"),
    ("false p |", "p p, 1"),
    ("true true |", "true true, 1"),
    ("true true &", "true true, 1"),
    ("p false &", "p false & p false &, 0"),
    ("p not not", "p not not p not not, 0"),
];

// In a filter it drops a Boolean on the left as well.
#[test]
fn the_boolean_rule_rewrites_masks(rt: HostRuntime) -> Result<(), Fail> {
    assert_eq!(rt;
        first_wrong_shared(
            rt.alloc(),
            Context::Filter,
            Shared::TwiceByBooleanRule,
            BOOLEAN_MASKS,
        )?
        .as_str(),
        ""
    );
    Ok(())
}
