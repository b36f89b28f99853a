//! Tests of the loops and selections of modules: those of small branch graphs, against plain slow counts over the graphs.
#![tactic(auto)]

#[cfg(test)]
mod counts;
#[cfg(test)]
mod found;
#[cfg(test)]
mod graphs;
#[cfg(test)]
mod rows;
#[cfg(test)]
mod sets;
