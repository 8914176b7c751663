//! The order in which places are evaluated.
ghost use Rattle.std.specs.Prelude.{◌≡◌, ◌⊎◌, ◌↔◌, ◌<◌, ◌++◌, [], ◌∷◌, ℕ, length, replicate, slice_get, slice_set, None, Some, IfOk, IfErr, OnOk, IsSome, IsTrue, is_some};
ghost use Rattle.px_expr.specs.Tree.{Tree};
ghost use Rattle.px_arena.specs.Denotes.{Denotes, IsIn, Reaches, inputs_of};
ghost use Rattle.px_rules.specs.Plan.{places};
ghost use Rattle.px_eval.specs.Order.{IsOrder, IsNeeded, IsReader, AreRead, Raised, PlacesBelow, Stays, last_reader};

use px_arena::{AExpr, Arena, Node};
use px_types::PlanError;
use std::alloc::Global;

/// Places, each once and after its inputs. Of each the position up to which its rows are needed: that
/// of its last reader, and the end where it is a root.
#[derive(Drop)]
pub struct Order {
    places: Vec<Node>,
    needed: Vec<Option<usize>>,
}

impl Order {
    /// No places, of so many.
    fn new(alloc: Global, len: usize) -> Result<Order, PlanError>
        ensures places { IfOk result (λ o. o.places.items ≡ []) }
        ensures needed { IfOk result (λ o. o.needed.items ≡ replicate len None) }
        ensures err { IfErr result (λ e. e ≡ PlanError.OutOfMemory) }
    {
        let mut needed = Vec::new(alloc);
        for _i in 0..len {
            needed.push(None)?;
        }
        Ok(Order {
            places: Vec::new(alloc),
            needed,
        })
    }

    /// How many places there are.
    pub fn len(&self) -> usize
        ensures { result ≡ length self.now.places.items }
    {
        self.places.len()
    }

    /// The place at a position.
    pub fn at(&self, position: usize) -> Node
        requires { position < length self.now.places.items }
        ensures { slice_get (places self.now.places.items) position ≡ Some result.0 }
    {
        self.places[position]
    }

    /// Whether the place at the position is the last that reads the rows.
    pub fn is_last(&self, node: Node, position: usize) -> bool
        requires { node.0 < length self.now.needed.items }
        ensures { IsTrue result ↔ (last_reader self.now.needed.items node.0 ≡ Some position) }
    {
        self.needed[node.0] == Some(position)
    }

    /// Whether the order has the place.
    fn has(&self, node: Node) -> bool
        requires { node.0 < length self.now.needed.items }
        ensures { result ≡ is_some (last_reader self.now.needed.items node.0) }
    {
        self.needed[node.0].is_some()
    }

    /// The rows are needed up to the position that comes next.
    fn need(&mut self, node: Node)
        requires { node.0 < length self.old.needed.items }
        ensures places { self.new.places.items ≡ self.old.places.items }
        ensures needed { self.new.needed.items
            ≡ slice_set self.old.needed.items node.0 (Some (length self.old.places.items)) }
    {
        self.needed[node.0] = Some(self.places.len());
    }

    /// The place comes next.
    fn place(&mut self, node: Node) -> Result<(), PlanError>
        requires { node.0 < length self.old.needed.items }
        ensures places { OnOk result (places self.new.places.items ≡ places self.old.places.items ++ node.0 ∷ []) }
        ensures needed { OnOk result (self.new.needed.items
            ≡ slice_set self.old.needed.items node.0 (Some (length self.old.places.items))) }
        ensures err { IfErr result (λ e. e ≡ PlanError.OutOfMemory) }
    {
        self.need(node);
        self.places.push(node)?;
        Ok(())
    }
}

/// The inputs are needed up to the position that comes next.
fn need_inputs(order: &mut Order, expr: &AExpr)
    requires { (m : ℕ) → IsIn m (inputs_of expr.now) → IsSome (last_reader order.old.needed.items m) }
    ensures places { order.new.places.items ≡ order.old.places.items }
    ensures raised { Raised (length order.old.places.items)
        (inputs_of expr.now) order.old.needed.items order.new.needed.items }
    ensures inputs { (m : ℕ) → IsIn m (inputs_of expr.now)
        → last_reader order.new.needed.items m ≡ Some (length order.old.places.items) }
{
    for i in 0..expr.input_count() {
        order.need(expr.input(i));
    }
}

/// The roots are needed to the end.
fn need_roots(order: &mut Order, roots: &[Node])
    requires { (m : ℕ) → IsIn m (places roots.now) → IsSome (last_reader order.old.needed.items m) }
    ensures places { order.new.places.items ≡ order.old.places.items }
    ensures raised { Raised (length order.old.places.items)
        (places roots.now) order.old.needed.items order.new.needed.items }
    ensures roots { (m : ℕ) → IsIn m (places roots.now)
        → last_reader order.new.needed.items m ≡ Some (length order.old.places.items) }
{
    for i in 0..roots.len() {
        order.need(roots[i]);
    }
}

/// The order has the place and all that it reaches.
#[cycle(visit)]
fn visit(arena: &Arena, node: Node, order: &mut Order) -> Result<(), PlanError>
    requires denotes { (t : Tree) × Denotes arena.now node.0 t }
    requires order { IsOrder arena.now (places order.old.places.items) order.old.needed.items }
    requires read { AreRead arena.now (places order.old.places.items) order.old.needed.items }
    ensures order { OnOk result (IsOrder arena.now (places order.new.places.items) order.new.needed.items) }
    ensures read { OnOk result (AreRead arena.now (places order.new.places.items) order.new.needed.items) }
    ensures kept { OnOk result (Stays order.old.needed.items order.new.needed.items) }
    ensures reached { OnOk result (PlacesBelow arena.now node.0 order.old.needed.items order.new.needed.items) }
    ensures placed { OnOk result (IsSome (last_reader order.new.needed.items node.0)) }
    ensures err { IfErr result (λ e. e ≡ PlanError.OutOfMemory) }
{
    if order.has(node) {
        return Ok(());
    }
    let expr = arena.get(node);
    for i in 0..expr.input_count() {
        visit(arena, expr.input(i), order)?;
    }
    need_inputs(order, expr);
    order.place(node)?;
    Ok(())
}

/// The roots and all that they reach.
pub fn order_of(alloc: Global, arena: &Arena, roots: &[Node]) -> Result<Order, PlanError>
    requires { (n : ℕ) → IsIn n (places roots.now) → (t : Tree) × Denotes arena.now n t }
    ensures order { IfOk result (λ o. IsOrder arena.now (places o.places.items) o.needed.items) }
    ensures reached { IfOk result (λ o. (p : ℕ) → IsSome (last_reader o.needed.items p) → (n : ℕ)
        × IsIn n (places roots.now) × Reaches arena.now n p) }
    ensures roots { IfOk result (λ o. (n : ℕ) → IsIn n (places roots.now)
        → IsNeeded o.needed.items n (length (places o.places.items))) }
    ensures read { IfOk result (λ o. (m last : ℕ) → last_reader o.needed.items m ≡ Some last
        → IsIn m (places roots.now) ⊎ IsReader arena.now (places o.places.items) last m) }
    ensures err { IfErr result (λ e. e ≡ PlanError.OutOfMemory) }
{
    let mut order = Order::new(alloc, arena.len())?;
    for i in 0..roots.len() {
        visit(arena, roots[i], &mut order)?;
    }
    need_roots(&mut order, roots);
    Ok(order)
}
