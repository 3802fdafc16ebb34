// The hypergraph of a formula, with what each order begins from: how many neighbours a vertex has, and the forward sequence of levels.
ghost use Rattle.std.specs.Prelude.{◌≡◌, ◌≤◌, IfOk};
ghost use Rattle.cnf_base.specs.Limits.{max_vars};
ghost use Rattle.variable_order.specs.Hypergraph.{size_of};

use crate::edges::edges;
use crate::levels::sequence;
use crate::neighbours::degrees;
use crate::rows::Rows;
use cnf_base::{Cnf, OutOfMemory};
use std::alloc::Global;
use std::marker::Model;

/// The hypergraph of a formula. Its vertices are numbered from 0: the vertex of a variable is one less than its number.
#[derive(Drop)]
pub struct Hypergraph {
    vars: u32,
    size: u64,
    edges: Rows,
    holders: Rows,
    degrees: Vec<u32>,
    levels: Vec<u32>,
}

impl Model for Hypergraph {
    ghost use Rattle.std.specs.Prelude.{◌≤◌};
    ghost use Rattle.cnf_base.specs.Limits.{max_vars};
    ghost use Rattle.variable_order.specs.Hypergraph.{Hypergraph as Graph};

    ghost Value = { Graph };

    ghost view = { λ h. record { vars = h.vars; size = h.size } };

    ghost invariant = { λ h. h.vars ≤ max_vars };
}

impl Hypergraph {
    /// The hypergraph of a formula, with what all orders begin from.
    pub fn of(alloc: Global, formula: &Cnf) -> Result<Hypergraph, OutOfMemory>
        ensures vars { IfOk result (λ graph. graph.vars ≡ formula.now.vars) }
        ensures size { IfOk result (λ graph. graph.size ≡ size_of formula.now) }
    {
        let graph = bare(alloc, formula)?;
        let degrees = degrees(alloc, &graph)?;
        let graph = with_degrees(graph, degrees);
        let levels = sequence(alloc, &graph)?;
        Ok(with_levels(graph, levels))
    }

    /// How large the formula is: its literals and its variables.
    pub fn size(&self) -> u64
        ensures { result ≡ self.now.size }
    {
        self.size
    }

    /// How many vertices there are.
    pub(crate) fn vars(&self) -> usize
        ensures value { result ≡ self.now.vars }
        ensures few { result ≤ max_vars }
    {
        self.vars as usize
    }

    /// How many edges there are.
    pub(crate) fn edges(&self) -> usize {
        self.edges.len()
    }

    /// The vertices of an edge, by rising number; none where there is no such edge.
    #[inline]
    pub(crate) fn edge(&self, edge: usize) -> &[u32] {
        self.edges.row(edge)
    }

    /// The edges that hold a vertex, by rising number; none where there is no such vertex.
    #[inline]
    pub(crate) fn holders(&self, vertex: usize) -> &[u32] {
        self.holders.row(vertex)
    }

    /// How many other vertices share an edge with this one, or somewhat more where it has long edges; 0 where there is no such vertex.
    #[inline]
    pub(crate) fn degree(&self, vertex: usize) -> u32 {
        if vertex < self.degrees.len() {
            self.degrees[vertex]
        } else {
            0
        }
    }

    /// All vertices by levels, one component after another.
    pub(crate) fn levels(&self) -> &[u32] {
        self.levels.as_slice()
    }
}

// The hypergraph without degrees and levels.
fn bare(alloc: Global, formula: &Cnf) -> Result<Hypergraph, OutOfMemory>
    ensures vars { IfOk result (λ graph. graph.vars ≡ formula.now.vars) }
    ensures size { IfOk result (λ graph. graph.size ≡ size_of formula.now) }
{
    formula.formula_law();
    let edges = edges(alloc, formula)?;
    let holders = edges.transposed(alloc, formula.vars() as usize)?;
    Ok(Hypergraph {
        vars: formula.vars(),
        size: size_of(formula),
        edges,
        holders,
        degrees: Vec::new(alloc),
        levels: Vec::new(alloc),
    })
}

fn size_of(formula: &Cnf) -> u64
    ensures { result ≡ size_of formula.now }
{
    let mut size = u64::from(formula.vars());
    'clauses: for clause in 0..formula.len() {
        size = size.saturating_add(formula.clause(clause + 1).len() as u64);
    }
    size
}

fn with_degrees(mut graph: Hypergraph, degrees: Vec<u32>) -> Hypergraph
    ensures { result ≡ graph }
{
    graph.degrees = degrees;
    graph
}

fn with_levels(mut graph: Hypergraph, levels: Vec<u32>) -> Hypergraph
    ensures { result ≡ graph }
{
    graph.levels = levels;
    graph
}
