//! The shape of a file's parties and connections.
ghost use Rattle.std.specs.Prelude.{map};
ghost use Rattle.sj_forest.specs.Edges.{edge_of};
ghost use Rattle.sj_forest_laws.specs.Forest.{AreLeft, nobody};

use crate::edges::Edge;

/// The parties of a file and the two parties of each connection, in file order, of which nobody is
/// left.
#[derive(Drop)]
pub struct Forest {
    pub(crate) parties: usize,
    pub(crate) edges: Vec<Edge>,
    ghost none_left: { ∥ AreLeft (map edge_of edges.items) parties nobody ∥₁ },
}

/// The line of the first request or accept; else who is left, in file order; else the forest.
#[derive(Drop)]
pub enum Shape {
    Opens(u32),
    Cycle(Vec<u16>),
    Forest(Forest),
}
