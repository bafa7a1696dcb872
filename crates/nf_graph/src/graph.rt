//! `Graph`: nodes that read earlier nodes.

ghost use Rattle.std.specs.Prelude.{◌≡◌, IfOk};
ghost use Rattle.nf_graph.specs.WellMade.{IsWellMade};

use crate::node::Node;
use nf_value::Mem;
use std::marker::Model;

/// A graph: nodes, each of which reads outputs of nodes before it (own). It has at most 65,536 nodes and 65,536 ports. Contracts see the
/// list of its nodes.
pub struct Graph {
    nodes: Vec<Node>,
}

impl Drop for Graph {
    fn drop(self) {
        let Graph { nodes: _ } = self;
    }
}

impl Model for Graph {
    ghost use Rattle.std.specs.Prelude.{List};
    ghost use Rattle.std.specs.Coded.{codes};
    ghost use Rattle.nf_graph.specs.declared.node.Node.{Node};
    ghost use Rattle.nf_graph.specs.contracts.node.Node as n;
    ghost use Rattle.nf_graph.specs.WellMade.{IsWellMade};

    ghost Value = { List Node };

    ghost coded = { Prim.hlevel (codes, n.the_row.coded) };

    ghost view = { λ g. g.nodes.items };

    ghost invariant = { λ g. IsWellMade g.nodes.items };
}

impl Graph {
    /// The graph of these nodes. Takes no memory.
    pub fn new(nodes: Vec<Node>) -> Graph
        requires { IsWellMade nodes.items }
        ensures { result ≡ nodes.items }
    {
        Graph { nodes }
    }

    /// The nodes in order. Takes no memory.
    pub fn nodes(&self) -> &[Node]
        ensures nodes { result.now ≡ self.now }
        ensures well_made { IsWellMade self.now }
    {
        self.nodes.as_slice()
    }

    /// A copy of the graph.
    ///
    /// # Errors
    ///
    /// `Mem` if there is no memory for it.
    pub fn copy(&self) -> Result<Graph, Mem>
        ensures { IfOk result (λ g. g ≡ self.now) }
    {
        let nodes = copy_nodes(&self.nodes)?;
        Ok(Graph { nodes })
    }
}

fn copy_nodes(nodes: &Vec<Node>) -> Result<Vec<Node>, Mem>
    ensures { IfOk result (λ v. v.items ≡ nodes.now.items) }
{
    let mut copies = Vec::new(*nodes.allocator());
    for node in nodes {
        copies.push(node.copy()?)?;
    }
    Ok(copies)
}
