// Taking the formula: opening its file and reading it.
ghost use Rattle.std.specs.Prelude.{◌≡◌, ◌≢◌, None};
ghost use Rattle.host_io.specs.declared.role.Role.TheVariants.{Cnf as CnfRole};
ghost use Rattle.host_io.specs.Files.{Kept};
ghost use Rattle.solver_cli.specs.Phases.{TakesFormula, ReadsFormula};

use crate::excerpt::{Excerpt, NotedSource};
use cnf_base::Cnf;
use dimacs_reader::{CnfError, Mode, read_cnf};
use host_io::{Host, Role, beside_kept};
use std::alloc::Global;

/// Opens the file of this name and reads the formula in this mode. The excerpt is that of its text then.
pub fn take_formula<H: Host>(
    alloc: Global,
    host: &mut H,
    name: &str,
    mode: Mode,
    excerpt: &mut Excerpt,
) -> Result<Cnf, CnfError>
    requires { (H.channel host.old CnfRole).name ≡ None }
    ensures takes { TakesFormula mode H.tells (H.channel host.old CnfRole) (H.channel host.new CnfRole) (H.files host.old) name.now result }
    ensures kept { Kept CnfRole None (H.channel host.old) (H.channel host.new) (H.files host.old) (H.files host.new) }
{
    if host.open_read(Role::Cnf, name).is_err() {
        return Err(CnfError::ReadFault);
    }
    read_formula(alloc, host, mode, excerpt)
}

fn read_formula<H: Host>(
    alloc: Global,
    host: &mut H,
    mode: Mode,
    excerpt: &mut Excerpt,
) -> Result<Cnf, CnfError>
    requires { (H.channel host.old CnfRole).name ≢ None }
    ensures reads { ReadsFormula mode H.tells (H.channel host.old CnfRole) (H.channel host.new CnfRole) result }
    ensures kept { Kept CnfRole None (H.channel host.old) (H.channel host.new) (H.files host.old) (H.files host.new) }
{
    beside_kept::<H>();
    let mut source = NotedSource::new(host, Role::Cnf, excerpt);
    read_cnf(alloc, &mut source, mode)
}
