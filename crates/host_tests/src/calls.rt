// What the tests do with a host: calls in turn, and what they gave as text.
ghost use Rattle.std.specs.Prelude.{◌≡◌, None};
ghost use Rattle.host_io.specs.declared.role.Role.{Role};
ghost use Rattle.host_io.specs.Files.{IsInput, IsCreated};

use host_io::{Failed, Host, Role, load, put};
use std::alloc::{AllocError, Global};

// Opens the file, and loads from it twice. Where the first load fails, 77 stands for its number of bytes.
fn load_twice<H: Host>(
    host: &mut H,
    role: Role,
    name: &str,
    first: &mut [u8],
    second: &mut [u8],
) -> Result<(usize, usize), Failed>
    requires input { IsInput role }
    requires unnamed { (any : Role) → (H.channel host.old any).name ≡ None }
{
    host.open_read(role, name)?;
    let count = load(host, role, first).unwrap_or(77);
    Ok((count, load(host, role, second)?))
}

/// How many bytes two loads of so many gave, and the two buffers, dots where nothing came.
pub fn loaded<H: Host>(
    alloc: Global,
    host: &mut H,
    role: Role,
    name: &str,
    sizes: (usize, usize),
) -> Result<String, AllocError>
    requires input { IsInput role }
    requires unnamed { (any : Role) → (H.channel host.old any).name ≡ None }
{
    let mut first = vec![in alloc; b'.'; sizes.0]?;
    let mut second = vec![in alloc; b'.'; sizes.1]?;
    let counts = load_twice(host, role, name, &mut first, &mut second);
    let first = str::from_utf8(&first).unwrap_or("no text");
    let second = str::from_utf8(&second).unwrap_or("no text");
    format!(in alloc; "{counts:?} {first} {second}")
}

/// What a call gave that opens the formula, and what is kept then of its role and of one that wasn't used.
pub fn traces<H: Host>(alloc: Global, host: &mut H, name: &str) -> Result<String, AllocError>
    requires unnamed { (any : Role) → (H.channel host.old any).name ≡ None }
{
    let opened = host.open_read(Role::Cnf, name);
    let (used, unused) = (host.trace(Role::Cnf), host.trace(Role::Order));
    format!(in alloc; "{opened:?} {used:?} {unused:?}")
}

/// Creates the file, and puts two pieces into it. Answers whether the first was put.
pub fn put_twice<H: Host>(
    host: &mut H,
    role: Role,
    name: &str,
    first: &[u8],
    second: &[u8],
) -> Result<bool, Failed>
    requires created { IsCreated role }
    requires unnamed { (any : Role) → (H.channel host.old any).name ≡ None }
{
    host.create(role, name)?;
    let is_put = put(host, role, first).is_ok();
    put(host, role, second)?;
    Ok(is_put)
}

/// Creates the file, and writes without a flush.
pub fn write_once<H: Host>(
    host: &mut H,
    role: Role,
    name: &str,
    bytes: &[u8],
) -> Result<usize, Failed>
    requires created { IsCreated role }
    requires unnamed { (any : Role) → (H.channel host.old any).name ≡ None }
{
    host.create(role, name)?;
    host.write(role, bytes)
}
