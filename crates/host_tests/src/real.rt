// The real host: files that come back, buffers that are written at a flush, and calls that fail.
ghost use Rattle.std.specs.Prelude.{◌≡◌};
ghost use Rattle.host_io.specs.Files.{IsCreated};

use crate::calls::{loaded, put_twice, traces, write_once};
use host_io::{Failed, RealHost, Role};
use std::process::Abort;
use std::test::Fail;
use std::{fs, process};

fn real_put(
    rt: HostRuntime,
    role: Role,
    name: &str,
    first: &[u8],
    second: &[u8],
) -> Result<bool, Failed>
    requires { IsCreated role }
{
    put_twice(&mut RealHost::new(rt), role, name, first, second)
}

fn real_write(rt: HostRuntime, role: Role, name: &str, bytes: &[u8]) -> Result<usize, Failed>
    requires { IsCreated role }
{
    write_once(&mut RealHost::new(rt), role, name, bytes)
}

fn real_loaded(rt: HostRuntime, name: &str, sizes: (usize, usize)) -> Result<String, Fail> {
    let text = loaded(rt.alloc(), &mut RealHost::new(rt), Role::Cnf, name, sizes)?;
    Ok(text)
}

// The wanted text of 200000 bytes behind five.
fn long_text(rt: HostRuntime) -> Result<String, Fail> {
    let came = "p".repeat(rt.alloc(), 199999)?;
    let rest = ".".repeat(rt.alloc(), 100001)?;
    Ok(format!(in rt.alloc(); "Ok((6, 199999)) smallp {came}{rest}")?)
}

#[test]
fn real_files(rt: HostRuntime) -> Result<(), Fail> {
    let id = process::id(rt.process());
    let path = format!(in rt.alloc(); "/tmp/host_io_{id}")?;
    let bytes = vec![in rt.alloc(); b'p'; 200000]?;
    let puts = real_put(rt, Role::ProofOut, path.as_str(), b"small", &bytes);
    assert_eq!(rt; puts, Ok(true));
    let given = real_loaded(rt, path.as_str(), (6, 300000))?;
    assert!(rt; given == long_text(rt)?);
    fs::remove_file(&rt, path.as_str())?;
    assert!(rt; fs::metadata(&rt, path.as_str()).is_err());
    Ok(())
}

#[test]
fn real_buffers(rt: HostRuntime) -> Result<(), Fail> {
    let id = process::id(rt.process());
    let path = format!(in rt.alloc(); "/tmp/host_io_buffer_{id}")?;
    let mut host = RealHost::new(rt);
    let written = write_once(&mut host, Role::Made, path.as_str(), b"later");
    let len = fs::read(&rt, path.as_str())?.len();
    assert_eq!(rt; (written, len), (Ok(5), 0));
    fs::remove_file(&rt, path.as_str())?;
    Ok(())
}

// What is kept of a call that failed, and of a role that wasn't used.
#[test]
fn real_traces(rt: HostRuntime) -> Result<(), Fail> {
    let given = traces(rt.alloc(), &mut RealHost::new(rt), "/tmp/no/such/file")?;
    assert_eq!(rt;
        given.as_str(),
        "Err(Failed) Some(Trace { is_open: false, has_ended: false, fault: Some(NotFound) }) \
         Some(Trace { is_open: false, has_ended: false, fault: None })"
    );
    Ok(())
}

#[test]
fn real_faults(rt: HostRuntime) -> Result<(), Fail> {
    let bytes = vec![in rt.alloc(); 0u8; 100000]?;
    let late = real_write(rt, Role::ProofOut, "/dev/full", b"late");
    let flushed = real_put(rt, Role::Made, "/dev/full", b"late", b"");
    let full = real_write(rt, Role::Made, "/dev/full", &bytes);
    let missing = real_loaded(rt, "/tmp/no/such/file", (1, 1))?;
    let given = format!(in rt.alloc(); "{late:?} {flushed:?} {full:?} {missing}")?;
    assert_eq!(rt;
        given.as_str(),
        "Ok(4) Err(Failed) Err(Failed) Err(Failed) . ."
    );
    Ok(())
}
