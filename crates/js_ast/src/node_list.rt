//! The lists of trees.

ghost use Rattle.std.specs.Prelude.{◌≡◌, [], ◌∷◌, ◌++◌, OnOk, OnErr};
ghost use Rattle.std.specs.Borrow.{sem};
ghost use Rattle.js_ast.specs.Nodes.{nodes_of, order_of};

use flow_text::OutOfMemory;
use std::alloc::Global;

/// Nodes in their order.
#[derive(Debug, Drop)]
pub struct NodeList<T> {
    nodes: Vec<T>,
    // An order of the nodes, by their places, for who looks for equal ones. Nothing says that it is one.
    order: Vec<usize>,
}

impl<T: Drop> NodeList<T> {
    /// The empty list, with no order. It takes no memory.
    pub fn new(alloc: Global) -> NodeList<T>
        ensures nodes { nodes_of result ≡ [] }
        ensures order { order_of result ≡ [] }
    {
        NodeList {
            nodes: Vec::new(alloc),
            order: Vec::new(alloc),
        }
    }

    /// Adds a node at the end.
    pub fn push(&mut self, node: T) -> Result<(), OutOfMemory>
        ensures ok { OnOk result (nodes_of self.new ≡ nodes_of self.old ++ node ∷ []) }
        ensures unchanged { OnErr result (nodes_of self.new ≡ nodes_of self.old) }
        ensures order { order_of self.new ≡ order_of self.old }
    {
        self.nodes.push(node)?;
        Ok(())
    }

    /// Sets the order. Whoever reads it checks it.
    pub fn set_order(&mut self, order: Vec<usize>)
        ensures nodes { nodes_of self.new ≡ nodes_of self.old }
        ensures order { order_of self.new ≡ order.items }
    {
        self.order = order;
    }
}

// What only lends asks nothing of the nodes, so that a crate that calls it doesn't prove how they are dropped.
impl<T> NodeList<T> {
    ghost use Rattle.js_ast.specs.NodesLent.{LendsNodes};

    /// Its nodes.
    pub fn items(&self) -> &[T]
        ensures { result.now ≡ nodes_of self.now }
    {
        &self.nodes
    }

    /// Its nodes, to be changed one by one.
    pub fn items_mut(&mut self) -> &mut [T]
        ensures* writes_back { sem 𝓛 (LendsNodes T.row self.entry result) }
        ensures value { result.now ≡ nodes_of self.old }
    {
        &mut self.nodes
    }

    /// The order that was set last.
    pub fn order(&self) -> &[usize]
        ensures { result.now ≡ order_of self.now }
    {
        &self.order
    }
}
