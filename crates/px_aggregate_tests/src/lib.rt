//! Tests of aggregates and of extremes, as tables.
#![tactic(auto)]

#[cfg(test)]
mod aggregate_calls;
#[cfg(test)]
mod aggregates;
#[cfg(test)]
mod extreme_calls;
#[cfg(test)]
mod extremes;
