//! A law over the definitions.
ghost use Rattle.std.specs.Prelude.{List, IsTrue, IsSome};
ghost use Rattle.std.specs.List.{All};
ghost use Rattle.px_expr.specs.Plan.{Catalog};
ghost use Rattle.px_expr.specs.Tree.{Tree};
ghost use Rattle.px_meaning.specs.Check.{IsChecked};
ghost use Rattle.px_forms.specs.Written.{all_data, has_form};

/// Each tree that is checked has a form, and so have the trees of a list.
pub fn checked_trees_have_forms()
    ensures tree { (c : Catalog) (t : Tree) → IsChecked c t → IsTrue (has_form t) }
    ensures list { (c : Catalog) (ts : List Tree) → All (IsChecked c) ts → IsSome (all_data ts) }
{}
