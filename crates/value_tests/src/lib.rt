//! Tests of types, of values and of the layouts of records.
#![tactic(auto)]

#[cfg(test)]
mod layouts;
#[cfg(test)]
mod types;
#[cfg(test)]
mod values;
