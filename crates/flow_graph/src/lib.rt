//! A directed graph that is kept by links and rewritten in place.
//!
//! Two rewrites make a program's branch graph smaller: a node's edge to itself goes (`fold`), and a node is absorbed by its sole predecessor (`absorb`).
//! Each edge is one cell of a vector, in a list of its source's edges and in a list of its target's. All storage is taken when the graph is made.
//! The laws of the two rewrites over plain graphs are those of `laws`.
#![tactic(auto)]

mod along;
mod cells;
mod linked;
mod making;
mod rows;
mod walker;
mod walks;

pub use graph_laws as laws;
pub use linked::{Edge, Graph, MAX_EDGES, MAX_NODES};
pub use walker::Walks;
