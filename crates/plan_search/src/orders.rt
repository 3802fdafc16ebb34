// The orders of one formula, each made when it is first asked for.
ghost use Rattle.std.specs.Prelude.{◌≡◌, length, IfOk, IfSome, Some, OnOk, is_some};
ghost use Rattle.std.specs.Option.{option_copied};
ghost use Rattle.plan_search.specs.Orders.{IsMade, MakesMore, none_beside, order_of, with_order};

use cnf_base::{Cnf, OutOfMemory};
use schedule_plan::Order;
use std::alloc::Global;
use std::marker::Model;
use variable_order::{Hypergraph, by_cardinality, by_degree, by_levels, by_profile};

/// How an order is found from the formula's hypergraph.
#[derive(Clone, Copy)]
pub enum Method {
    Degree,
    Cardinality,
    Levels,
    Profile,
}

/// One of the orders: the one that was given, or one that is found.
#[derive(Clone, Copy)]
pub enum Kind {
    Natural,
    By(Method),
}

/// The orders that were made so far, all of the same variables. Contracts see them by their kinds.
#[derive(Drop)]
pub struct Orders {
    vars: u32,
    graph: Option<Hypergraph>,
    natural: Order,
    degree: Option<Order>,
    cardinality: Option<Order>,
    levels: Option<Order>,
    profile: Option<Order>,
}

impl Model for Orders {
    ghost use Rattle.std.specs.Prelude.{◌≡◌, length, IfSome};
    ghost use Rattle.plan_search.specs.Orders.{Made};

    ghost Value = { Made };

    ghost view = { λ o. record {
      vars = o.vars;
      given = o.natural;
      by_degree = o.degree;
      by_cardinality = o.cardinality;
      by_levels = o.levels;
      by_profile = o.profile;
    } };

    ghost invariant = { λ o. IfSome o.graph (λ graph. graph.vars ≡ o.vars) × (length o.natural ≡ o.vars)
        × IfSome o.degree (λ order. length order ≡ o.vars) × IfSome o.cardinality (λ order. length order ≡ o.vars)
        × IfSome o.levels (λ order. length order ≡ o.vars) × IfSome o.profile (λ order. length order ≡ o.vars) };
}

impl Orders {
    /// The order that is given, of so many variables, and none beside it.
    pub fn new(vars: u32, natural: Order) -> Orders
        requires { length natural ≡ vars }
        ensures { result ≡ none_beside vars natural }
    {
        Orders {
            vars,
            graph: None,
            natural,
            degree: None,
            cardinality: None,
            levels: None,
            profile: None,
        }
    }

    /// How large the formula is: its literals and its variables.
    pub fn size(&mut self, alloc: Global, formula: &Cnf) -> Result<u64, OutOfMemory>
        requires { self.old.vars ≡ formula.now.vars }
        ensures { self.new ≡ self.old }
    {
        let graph = self.take_graph(alloc, formula)?;
        let size = graph.size();
        self.graph = Some(graph);
        Ok(size)
    }

    /// Makes an order, unless it is there.
    #[tactic(auto, using(crate::proofs::More::more_none, crate::proofs::More::more_with, crate::proofs::More::made_with))]
    pub fn make(&mut self, alloc: Global, formula: &Cnf, kind: Kind) -> Result<(), OutOfMemory>
        requires { self.old.vars ≡ formula.now.vars }
        ensures made { OnOk result (IsMade kind self.new) }
        ensures more { MakesMore self.old self.new }
    {
        let Kind::By(method) = kind else {
            return Ok(());
        };
        if self.is_made(kind) {
            return Ok(());
        }
        let graph = self.take_graph(alloc, formula)?;
        let made = ordered(alloc, &graph, method);
        self.graph = Some(graph);
        self.keep(method, made?);
        Ok(())
    }

    /// The order of a kind, which is made.
    pub fn get(&self, kind: Kind) -> &Order
        requires { IsMade kind self.now }
        ensures order { order_of kind self.now ≡ Some result.now }
        ensures length { length result.now ≡ self.now.vars }
    {
        match self.found(kind) {
            Some(order) => order,
            None => unreachable!(),
        }
    }

    fn is_made(&self, kind: Kind) -> bool
        ensures { result ≡ is_some (order_of kind self.now) }
    {
        self.found(kind).is_some()
    }

    // The order of a kind, if it is made.
    fn found(&self, kind: Kind) -> Option<&Order>
        ensures order { option_copied result ≡ order_of kind self.now }
        ensures length { IfSome result (λ order. length order.now ≡ self.now.vars) }
    {
        match kind {
            Kind::Natural => Some(&self.natural),
            Kind::By(Method::Degree) => self.degree.as_ref(),
            Kind::By(Method::Cardinality) => self.cardinality.as_ref(),
            Kind::By(Method::Levels) => self.levels.as_ref(),
            Kind::By(Method::Profile) => self.profile.as_ref(),
        }
    }

    /// The order of a kind, which is made.
    pub fn into_order(self, kind: Kind) -> Order
        requires { IsMade kind self }
        ensures order { order_of kind self ≡ Some result }
        ensures length { length result ≡ self.vars }
    {
        match self.into_found(kind) {
            Some(order) => order,
            None => unreachable!(),
        }
    }

    fn into_found(self, kind: Kind) -> Option<Order>
        ensures order { result ≡ order_of kind self }
        ensures length { IfSome result (λ order. length order ≡ self.vars) }
    {
        let Orders {
            vars: _,
            graph: _,
            natural,
            degree,
            cardinality,
            levels,
            profile,
        } = self;
        match kind {
            Kind::Natural => Some(natural),
            Kind::By(Method::Degree) => degree,
            Kind::By(Method::Cardinality) => cardinality,
            Kind::By(Method::Levels) => levels,
            Kind::By(Method::Profile) => profile,
        }
    }

    // The hypergraph, which the caller puts back.
    fn take_graph(&mut self, alloc: Global, formula: &Cnf) -> Result<Hypergraph, OutOfMemory>
        requires { self.old.vars ≡ formula.now.vars }
        ensures same { self.new ≡ self.old }
        ensures graph { IfOk result (λ graph. graph.vars ≡ self.old.vars) }
    {
        match self.graph.take() {
            Some(graph) => Ok(graph),
            None => Hypergraph::of(alloc, formula),
        }
    }

    fn keep(&mut self, method: Method, order: Order)
        requires { length order ≡ self.old.vars }
        ensures { self.new ≡ with_order method order self.old }
    {
        match method {
            Method::Degree => self.degree = Some(order),
            Method::Cardinality => self.cardinality = Some(order),
            Method::Levels => self.levels = Some(order),
            Method::Profile => self.profile = Some(order),
        }
    }
}

fn ordered(alloc: Global, graph: &Hypergraph, method: Method) -> Result<Order, OutOfMemory>
    ensures { IfOk result (λ order. length order ≡ graph.now.vars) }
{
    match method {
        Method::Degree => by_degree(alloc, graph),
        Method::Cardinality => by_cardinality(alloc, graph),
        Method::Levels => by_levels(alloc, graph),
        Method::Profile => by_profile(alloc, graph),
    }
}
