// An order of a formula's variables by one of the methods, and its text in the file that was created for it.
ghost use Rattle.std.specs.Prelude.{◌≡◌, ◌≢◌, None, IfOk, length};
ghost use Rattle.host_io.specs.declared.role.Role.TheVariants.{Made};
ghost use Rattle.host_io.specs.Files.{Kept};
ghost use Rattle.solver_cli.specs.Answer.{IsOrderOf};
ghost use Rattle.solver_cli.specs.MadeText.{order_line};
ghost use Rattle.solver_cli.specs.Phases.{PutsText};

use cnf_base::{Cnf, OutOfMemory};
use command_line::OrderMethod;
use host_io::{Failed, Host, HostSink, Role, Sink, beside_kept};
use schedule_plan::Order;
use std::alloc::Global;
use variable_order::{Hypergraph, by_cardinality, by_degree, by_levels, by_profile};
use workload::write_order;

/// An order of the formula's variables by this method.
pub fn order_by(alloc: Global, formula: &Cnf, method: OrderMethod) -> Result<Order, OutOfMemory>
    ensures { IfOk result (λ order. IsOrderOf formula.now.vars order) }
{
    let graph = Hypergraph::of(alloc, formula)?;
    let order = order_of(alloc, &graph, method)?;
    let _variables = order.as_slice();
    Ok(order)
}

fn order_of(alloc: Global, graph: &Hypergraph, method: OrderMethod) -> Result<Order, OutOfMemory>
    ensures { IfOk result (λ order. length order ≡ graph.now.vars) }
{
    match method {
        OrderMethod::Degree => by_degree(alloc, graph),
        OrderMethod::Cardinality => by_cardinality(alloc, graph),
        OrderMethod::Levels => by_levels(alloc, graph),
        OrderMethod::Profile => by_profile(alloc, graph),
    }
}

/// Writes the text of an order in the role that was created for it, and flushes it.
pub fn put_order<H: Host>(host: &mut H, order: &Order) -> Result<(), Failed>
    requires created { (H.channel host.old Made).name ≢ None }
    ensures puts { PutsText H.tells (H.channel host.old Made) (H.channel host.new Made) (order_line order.now) result }
    ensures kept { Kept Made (H.channel host.old Made).name (H.channel host.old) (H.channel host.new) (H.files host.old)
        (H.files host.new) }
{
    beside_kept::<H>();
    let mut sink = HostSink::new(host, Role::Made);
    print_order(&mut sink, order)
}

fn print_order<S: Sink>(sink: &mut S, order: &Order) -> Result<(), Failed>
    ensures puts { PutsText S.tells (S.channel sink.old) (S.channel sink.new) (order_line order.now) result }
    ensures beside { S.beside sink.new ≡ S.beside sink.old }
{
    write_order(sink, order)?;
    sink.flush()
}
