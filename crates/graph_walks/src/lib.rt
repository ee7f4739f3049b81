//! Walks in graphs whose vertices are numbers: a graph has for each vertex the vertices that its edges lead to. Some vertices are
//! stops. Each answer is exact, and takes time linear in vertices and edges, and no stack that grows with them.
//!
//! - [`reached`] marks each vertex that a walk from a start reaches which goes on from no stop, and no other
//!   (`specs/Reached.antt`).
//! - [`circle`] is the shortest circle without a stop through the least vertex that has one, of equally short ones the first by
//!   the numbers, or none where each circle has a stop (`specs/Circles.antt`).
//! - [`longest`] is for each vertex what the dearest leg costs: a walk up to the next stop. It asks that no circle is without a
//!   stop, which is what `circle` says where it answers none (`specs/Legs.antt`).
//! - [`is_graph`] says whether each edge leads to a vertex, which the others ask.
//!
//! Inside, distances are found level by level (`src/levels.rt`), and components by one search in depth (`src/components.rt`,
//! `specs/Searches.antt`): where each circle has a stop, their order is one in which each vertex stands behind those that it
//! leads to.
#![tactic(auto)]

mod circles;
mod components;
mod graph;
mod legs;
mod levels;
mod reaching;
mod turning;

pub use circles::circle;
pub use graph::is_graph;
pub use legs::longest;
pub use reaching::reached;
