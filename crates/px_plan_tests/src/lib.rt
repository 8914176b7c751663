//! Tests of expressions, of the check, of the rewriting and of the evaluation, as tables.
#![tactic(auto)]

#[cfg(test)]
mod checks;
#[cfg(test)]
mod expressions;
#[cfg(test)]
mod plans;
#[cfg(test)]
mod selects;
