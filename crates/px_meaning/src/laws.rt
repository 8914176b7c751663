//! Laws over the definitions.
ghost use Rattle.std.specs.Prelude.{◌≡◌, ℕ, ◌+◌, ◌*◌, ◌^◌, ◌≤◌, List, [], ◌∷◌, map, length, codes, pos, negsuc, true, false, None, Some, Ok};
ghost use Rattle.std.specs.List.{All};
ghost use Rattle.px_base.specs.declared.error.PlanError.{PlanError};
ghost use Rattle.px_types.specs.declared.dtype.DataType.TheVariants as dtype;
ghost use Rattle.px_types.specs.declared.operator.Operator.TheVariants as op;
ghost use Rattle.px_types.specs.declared.value_type.ValueType.{ValueType};
ghost use Rattle.px_types.specs.declared.value_type.ValueType.TheVariants as value_type;
ghost use Rattle.px_types.specs.Schemas.{first_repeated};
ghost use Rattle.px_semantics.specs.Rows.{TypedRows, Contents};
ghost use Rattle.px_expr.specs.declared.context.Context.{Context};
ghost use Rattle.px_expr.specs.declared.context.Context.TheVariants.{Select, Filter};
ghost use Rattle.px_expr.specs.declared.literal.LiteralValue.TheVariants as lit;
ghost use Rattle.px_expr.specs.Tree.{Column, Tree, Trees, none, more, trees, over};
ghost use Rattle.px_semantics.specs.Columns.{IsColumn};
ghost use Rattle.px_meaning.specs.Schema.{Fits};
ghost use Rattle.px_expr.specs.Plan.{Catalog, catalog_of};
ghost use Rattle.px_meaning.specs.Mean.{rows, mean, Same, mean_list};
ghost use Rattle.px_meaning.specs.Faults.{HasFault};
ghost use Rattle.px_meaning.specs.Check.{Typed, literal, cast_tree, check, HasType, check_list};
ghost use Rattle.px_meaning.specs.Lowerable.{IsLowerable};
ghost use Rattle.px_meaning.specs.Names.{name};
ghost use Rattle.px_meaning.specs.Laws.{KeepsMeaning};
ghost use Rattle.px_meaning.specs.Rewriting.{StepsTo, Reaches, Pairwise, AllReach, Moves};
ghost use Rattle.px_meaning.specs.Rewrites.{binary, not_tree, truth, IsRewrite};
ghost use Rattle.px_meaning.specs.Signatures.{OfType, UntypedInteger, united};
ghost use Rattle.px_meaning.specs.Weight.{weight, weights, nodes, nots, node_count, not_depth};

/// A checked tree that means something on a fitting frame means a column of its type: fewer than
/// 2^32 rows, each of them null or a value of the type.
pub fn checked_trees_mean_columns()
    ensures value_type { (c : Catalog) (t : Tree) (k : ValueType) (frame : List Contents) (v : TypedRows) →
        HasType c t k → Fits frame c.schema → rows c.kernels frame t ≡ Some v → v.value_type ≡ k }
    ensures column { (c : Catalog) (t : Tree) (k : ValueType) (frame : List Contents) (v : TypedRows) →
        HasType c t k → Fits frame c.schema → rows c.kernels frame t ≡ Some v → IsColumn v }
{}

/// A checked tree means nothing on a fitting frame exactly where it has a fault.
pub fn faulty_trees_mean_nothing()
    ensures nothing { (c : Catalog) (t : Tree) (k : ValueType) (frame : List Contents) →
        HasType c t k → Fits frame c.schema → rows c.kernels frame t ≡ None →
        (f : PlanError) × HasFault c.kernels frame t f }
    ensures faulty { (c : Catalog) (t : Tree) (k : ValueType) (frame : List Contents) (f : PlanError) →
        HasType c t k → Fits frame c.schema → HasFault c.kernels frame t f → rows c.kernels frame t ≡ None }
{}

/// A rewrite keeps the type of the tree that it replaces, its rows on every fitting frame and, in a
/// select, its name. It brings no fault, and gives a lighter tree.
pub fn rewrites_keep_meaning()
    ensures { (c : Catalog) (context : Context) → KeepsMeaning c context (IsRewrite c context) }
{}

/// A rewrite at one place keeps the same of the whole tree.
pub fn steps_keep_meaning()
    ensures { (c : Catalog) (context : Context) → KeepsMeaning c context (StepsTo (IsRewrite c context)) }
{}

/// A tree that rewrites reach has the type of the tree that they began with, means the same on every
/// fitting frame, has no other faults, and is no heavier.
pub fn reached_trees_keep_meaning()
    ensures value_type { (c : Catalog) (context : Context) (t u : Tree) → Reaches (IsRewrite c context) t u →
        (k : ValueType) → HasType c t k → HasType c u k }
    ensures same { (c : Catalog) (context : Context) (t u : Tree) → Reaches (IsRewrite c context) t u →
        (frame : List Contents) → Fits frame c.schema →
        Same context (mean c.kernels frame t) (mean c.kernels frame u) }
    ensures faults { (c : Catalog) (context : Context) (t u : Tree) → Reaches (IsRewrite c context) t u →
        (frame : List Contents) → Fits frame c.schema →
        (f : PlanError) → HasFault c.kernels frame u f → HasFault c.kernels frame t f }
    ensures weight { (c : Catalog) (context : Context) (t u : Tree) → Reaches (IsRewrite c context) t u →
        weight u ≤ weight t }
{}

/// Each move lowers the weight of the list.
pub fn moves_lower_weight()
    ensures { (c : Catalog) (context : Context) (us vs : Trees) (r : ℕ) →
        Moves (IsRewrite c context) us vs r → weights vs + r ≤ weights us }
{}

/// So there are at most 6·n·2^k moves: n the nodes of the trees, k the most `not`s on one path.
pub fn moves_are_bounded()
    ensures weight { (us : Trees) → weights us ≤ 6 * node_count us * 2 ^ not_depth us }
    ensures moves { (c : Catalog) (context : Context) (us vs : Trees) (r : ℕ) →
        Moves (IsRewrite c context) us vs r → r ≤ 6 * node_count us * 2 ^ not_depth us }
{}

/// Moves lead each tree, step by step, to the one in its place.
pub fn moves_reach()
    ensures each { (c : Catalog) (context : Context) (us vs : Trees) (r : ℕ) →
        Moves (IsRewrite c context) us vs r → AllReach (IsRewrite c context) us vs }
    ensures one { (c : Catalog) (context : Context) (t u : Tree) (r : ℕ) →
        Moves (IsRewrite c context) (more t none) (more u none) r → Reaches (IsRewrite c context) t u }
{}

/// What a checked list reaches passes the check as it is, with the same types.
pub fn reached_lists_are_checked()
    ensures { (c : Catalog) (context : Context) (ts us : List Tree) (vs : List Typed) →
        check_list c context ts ≡ Ok vs →
        AllReach (IsRewrite c context) (trees (map (λ (v : Typed). v.tree) vs)) (trees us) →
        (ws : List Typed) × (check_list c context us ≡ Ok ws) × (map (λ (w : Typed). w.tree) ws ≡ us) ×
        (map (λ (w : Typed). w.value_type) ws ≡ map (λ (v : Typed). v.value_type) vs) }
{}

/// Lists whose trees reach those in their places are answered alike on every fitting frame: the same
/// columns under the same names, or nothing. The second list brings no fault.
pub fn reached_lists_mean_the_same()
    ensures answer { (c : Catalog) (context : Context) (ts us : List Tree) →
        AllReach (IsRewrite c context) (trees ts) (trees us) →
        (frame : List Contents) → Fits frame c.schema →
        mean_list c.kernels frame context ts ≡ mean_list c.kernels frame context us }
    ensures faults { (c : Catalog) (context : Context) (us vs : Trees) →
        AllReach (IsRewrite c context) us vs →
        (frame : List Contents) → Fits frame c.schema →
        Pairwise (λ u v. (f : PlanError) → HasFault c.kernels frame v f → HasFault c.kernels frame u f) us vs }
{}

/// What the check gives is checked.
pub fn the_check_gives_checked_trees()
    ensures { (c : Catalog) (t : Tree) (v : Typed) → check c t ≡ Ok v → HasType c v.tree v.value_type }
{}

/// A checked list has, in their order, what the check gives of each tree, all checked. Masks are
/// Boolean, and in a select no name comes twice.
pub fn checked_lists()
    ensures each { (c : Catalog) (context : Context) (ts : List Tree) (vs : List Typed) →
        check_list c context ts ≡ Ok vs → map (check c) ts ≡ map Ok vs }
    ensures count { (c : Catalog) (context : Context) (ts : List Tree) (vs : List Typed) →
        check_list c context ts ≡ Ok vs → length vs ≡ length ts }
    ensures checked { (c : Catalog) (context : Context) (ts : List Tree) (vs : List Typed) →
        check_list c context ts ≡ Ok vs → All (λ (v : Typed). HasType c v.tree v.value_type) vs }
    ensures masks { (c : Catalog) (ts : List Tree) (vs : List Typed) →
        check_list c Filter ts ≡ Ok vs → All (λ (v : Typed). v.value_type ≡ value_type.Boolean) vs }
    ensures names { (c : Catalog) (ts : List Tree) (vs : List Typed) →
        check_list c Select ts ≡ Ok vs → first_repeated (map (λ (v : Typed). name v.tree) vs) ≡ None }
{}

/// What the check gives has only nodes that a plan has.
pub fn checked_trees_are_lowerable()
    ensures { (c : Catalog) (t : Tree) (v : Typed) → check c t ≡ Ok v → IsLowerable v.tree }
{}

/// `Null` is neutral, and Boolean gives way to every integer type.
pub fn types_unite()
    ensures null { united (OfType value_type.Null ∷ OfType value_type.Int32 ∷ []) ≡ Some value_type.Int32 }
    ensures boolean { united (OfType value_type.Boolean ∷ OfType value_type.Int16 ∷ []) ≡ Some value_type.Int16 }
{}

/// Beside a column of the type UInt8 the integer literal 5 has that type, and 300 takes both to Int32.
pub fn literals_take_the_type_of_their_column()
    ensures held { let a : Tree = over (Column (codes "a")) [] in
        check (catalog_of (record { name = codes "a"; dtype = dtype.UInt8 } ∷ []) [])
        (binary op.Plus a (literal (lit.Int (pos 5)))) ≡
        Ok (record { tree = binary op.Plus a (literal (lit.UInt8 5)); value_type = value_type.UInt8 }) }
    ensures wider { let a : Tree = over (Column (codes "a")) [] in
        check (catalog_of (record { name = codes "a"; dtype = dtype.UInt8 } ∷ []) [])
        (binary op.Lt a (literal (lit.Int (pos 300)))) ≡
        Ok (record { tree = binary op.Lt (cast_tree value_type.Int32 a) (literal (lit.Int32 (pos 300))); value_type = value_type.Boolean }) }
{}

/// An operator weighs 3 and a leaf 1, and a `not` doubles what stands under it. So a `not` that goes
/// into an `And` leaves a lighter tree.
pub fn nots_double_weights()
    ensures before { weight (not_tree (binary op.And (truth true) (truth false))) ≡ 10 }
    ensures after { weight (binary op.Or (not_tree (truth true)) (not_tree (truth false))) ≡ 7 }
    ensures nodes { nodes (not_tree (binary op.And (truth true) (truth false))) ≡ 4 }
    ensures nots { nots (not_tree (binary op.And (truth true) (not_tree (truth false)))) ≡ 2 }
{}

/// Integer literals take the common type of the inputs beside them where that holds them, and widen
/// it by their default types where it does not.
pub fn literals_unite_with_their_neighbours()
    ensures wider { united (OfType value_type.UInt8 ∷ UntypedInteger (pos 300) ∷ []) ≡ Some value_type.Int32 }
    ensures none { united (OfType value_type.UInt64 ∷ UntypedInteger (negsuc 0) ∷ []) ≡ None }
    ensures each { united (OfType value_type.UInt32 ∷ UntypedInteger (pos 10000000000000000000) ∷ UntypedInteger (pos 5000000000) ∷ [])
        ≡ None }
{}
