//! What expressions mean: definitions alone, with their laws on the contracts of functions that do
//! nothing.
#![tactic(auto)]

mod laws;
mod rewrite;

pub use laws::{
    checked_lists, checked_trees_are_lowerable, checked_trees_mean_columns,
    faulty_trees_mean_nothing, literals_take_the_type_of_their_column,
    literals_unite_with_their_neighbours, moves_are_bounded, moves_lower_weight, moves_reach,
    nots_double_weights, reached_lists_are_checked, reached_lists_mean_the_same,
    reached_trees_keep_meaning, rewrites_keep_meaning, steps_keep_meaning,
    the_check_gives_checked_trees, types_unite,
};
pub use rewrite::RewriteName;
