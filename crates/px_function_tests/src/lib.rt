//! Tests of functions and of the fields that they answer, as tables.
#![tactic(auto)]

#[cfg(test)]
mod fields;
#[cfg(test)]
mod functions;
#[cfg(test)]
mod table;
#[cfg(test)]
mod types;
