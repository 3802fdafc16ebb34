// Taking the cubes: opening their file and reading them.
ghost use Rattle.std.specs.Prelude.{◌≡◌, ◌≢◌, ◌≤◌, None};
ghost use Rattle.cnf_base.specs.Limits.{max_vars};
ghost use Rattle.host_io.specs.declared.role.Role.TheVariants.{Cubes as CubesRole};
ghost use Rattle.host_io.specs.Files.{Kept};
ghost use Rattle.solver_cli.specs.Phases.{ReadsCubes, TakesCubes};

use crate::excerpt::{Excerpt, NotedSource};
use cube_text::{CubeError, Cubes, read_cubes};
use host_io::{Host, Role, beside_kept};
use std::alloc::Global;

/// Opens the file of this name and reads cubes over so many variables.
pub fn take_cubes<H: Host>(
    alloc: Global,
    host: &mut H,
    vars: u32,
    name: &str,
    excerpt: &mut Excerpt,
) -> Result<Cubes, CubeError>
    requires few { vars ≤ max_vars }
    requires unnamed { (H.channel host.old CubesRole).name ≡ None }
    ensures takes { TakesCubes vars H.tells (H.channel host.old CubesRole) (H.channel host.new CubesRole) (H.files host.old) name.now result }
    ensures kept { Kept CubesRole None (H.channel host.old) (H.channel host.new) (H.files host.old) (H.files host.new) }
{
    if host.open_read(Role::Cubes, name).is_err() {
        return Err(CubeError::ReadFault);
    }
    read_opened(alloc, host, vars, excerpt)
}

fn read_opened<H: Host>(
    alloc: Global,
    host: &mut H,
    vars: u32,
    excerpt: &mut Excerpt,
) -> Result<Cubes, CubeError>
    requires few { vars ≤ max_vars }
    requires opened { (H.channel host.old CubesRole).name ≢ None }
    ensures reads { ReadsCubes vars H.tells (H.channel host.old CubesRole) (H.channel host.new CubesRole) result }
    ensures kept { Kept CubesRole None (H.channel host.old) (H.channel host.new) (H.files host.old) (H.files host.new) }
{
    beside_kept::<H>();
    let mut source = NotedSource::new(host, Role::Cubes, excerpt);
    read_cubes(alloc, vars, &mut source)
}
