// Taking orders of a formula's variables: that of the diagrams, from the file that is named, or the natural one, and that of
// the buckets, where a file of it is named.
ghost use Rattle.std.specs.Prelude.{◌≡◌, ◌≢◌, None, length, IfErr, IfOk, IfSome};
ghost use Rattle.host_io.specs.declared.role.Role.TheVariants.{Order as OrderRole, Buckets as BucketsRole};
ghost use Rattle.host_io.specs.Files.{IsInput, Kept};
ghost use Rattle.cnf_base.specs.Order.{natural};
ghost use Rattle.schedule_plan.specs.declared.order_error.OrderError.TheVariants.{OutOfMemory};
ghost use Rattle.command_line.specs.Reading.{text_of};
ghost use Rattle.solver_cli.specs.Phases.{HasBuckets, HasOrder, ReadsOrder, TakesOrder};

use crate::excerpt::{Excerpt, NotedSource};
use host_io::{Host, Role, beside_kept};
use schedule_plan::{Order, OrderError};
use std::alloc::Global;

/// The order of so many variables: the one in the file of this name, or without a name the variables by rising number.
pub fn take_order<H: Host>(
    alloc: Global,
    host: &mut H,
    vars: u32,
    name: Option<&str>,
    excerpt: &mut Excerpt,
) -> Result<Order, OrderError>
    requires { (H.channel host.old OrderRole).name ≡ None }
    ensures takes { HasOrder vars (text_of name.entry) H.tells (H.channel host.old OrderRole) (H.channel host.new OrderRole)
        (H.files host.old) result }
    ensures one_each { IfOk result (λ order. length order ≡ vars) }
    ensures kept { Kept OrderRole None (H.channel host.old) (H.channel host.new) (H.files host.old) (H.files host.new) }
{
    match name {
        Some(name) => take_named(alloc, host, Role::Order, vars, name, excerpt),
        None => natural_order(alloc, vars),
    }
}

/// The order of so many variables in the file of this name, by which buckets are formed; None without a name.
pub fn take_buckets<H: Host>(
    alloc: Global,
    host: &mut H,
    vars: u32,
    name: Option<&str>,
    excerpt: &mut Excerpt,
) -> Result<Option<Order>, OrderError>
    requires { (H.channel host.old BucketsRole).name ≡ None }
    ensures takes { HasBuckets vars (text_of name.entry) H.tells (H.channel host.old BucketsRole) (H.channel host.new BucketsRole)
        (H.files host.old) result }
    ensures one_each { IfOk result (λ named. IfSome named (λ order. length order ≡ vars)) }
    ensures kept { Kept BucketsRole None (H.channel host.old) (H.channel host.new) (H.files host.old) (H.files host.new) }
{
    match name {
        Some(name) => match take_named(alloc, host, Role::Buckets, vars, name, excerpt) {
            Ok(order) => Ok(Some(order)),
            Err(error) => Err(error),
        },
        None => Ok(None),
    }
}

fn natural_order(alloc: Global, vars: u32) -> Result<Order, OrderError>
    ensures made { IfOk result (λ order. order ≡ natural vars) }
    ensures one_each { IfOk result (λ order. length order ≡ vars) }
    ensures refused { IfErr result (λ error. error ≡ OutOfMemory) }
{
    let order = Order::natural(alloc, vars)?;
    Ok(order)
}

// Opens the file of this name in this role and reads the order.
fn take_named<H: Host>(
    alloc: Global,
    host: &mut H,
    role: Role,
    vars: u32,
    name: &str,
    excerpt: &mut Excerpt,
) -> Result<Order, OrderError>
    requires input { IsInput role }
    requires unnamed { (H.channel host.old role).name ≡ None }
    ensures takes { TakesOrder vars H.tells (H.channel host.old role) (H.channel host.new role) (H.files host.old) name.now result }
    ensures kept { Kept role None (H.channel host.old) (H.channel host.new) (H.files host.old) (H.files host.new) }
{
    if host.open_read(role, name).is_err() {
        return Err(OrderError::ReadFault);
    }
    read_order(alloc, host, role, vars, excerpt)
}

fn read_order<H: Host>(
    alloc: Global,
    host: &mut H,
    role: Role,
    vars: u32,
    excerpt: &mut Excerpt,
) -> Result<Order, OrderError>
    requires input { IsInput role }
    requires opened { (H.channel host.old role).name ≢ None }
    ensures reads { ReadsOrder vars H.tells (H.channel host.old role) (H.channel host.new role) result }
    ensures kept { Kept role None (H.channel host.old) (H.channel host.new) (H.files host.old) (H.files host.new) }
{
    beside_kept::<H>();
    let mut source = NotedSource::new(host, role, excerpt);
    Order::read(alloc, vars, &mut source)
}
