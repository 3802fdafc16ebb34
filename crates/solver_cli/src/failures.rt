// Why a call on a file failed, and what memory was wanted for, as far as the host kept it.
use crate::comment::Comment;
use crate::explanation::Explanation;
use crate::file_names::file_line;
use command_line::Asked;
use host_io::{Host, Role, Trace};
use std::io::ErrorKind;

// The files that are read, in the order in which they are.
const INPUTS: [Role; 6] = [
    Role::Cnf,
    Role::Order,
    Role::Buckets,
    Role::Schedule,
    Role::Cubes,
    Role::ProofIn,
];

const OUTPUTS: [Role; 3] = [Role::ProofOut, Role::Made, Role::Out];

/// Which file couldn't be opened or read, and why.
pub fn read_reasons<H: Host>(asked: &Asked<'_>, host: &H) -> Explanation {
    match first_fault(host, &INPUTS) {
        Some((role, trace, kind)) => {
            let failed = if trace.is_open {
                ", couldn't be read: "
            } else {
                ", couldn't be opened: "
            };
            Explanation::new().line(fault_line(asked, role, failed, kind))
        }
        None => Explanation::new().text("a file that the command reads couldn't be opened or read"),
    }
}

/// Which file, or standard output, couldn't be created or written, and why.
pub fn write_reasons<H: Host>(asked: &Asked<'_>, host: &H) -> Explanation {
    match first_fault(host, &OUTPUTS) {
        Some((role, trace, kind)) => write_reason(asked, role, trace, kind),
        None => Explanation::new().text(
            "a file that the command writes, or standard output, couldn't be written",
        ),
    }
}

fn write_reason(asked: &Asked<'_>, role: Role, trace: Trace, kind: ErrorKind) -> Explanation {
    if trace.is_open {
        return Explanation::new().line(fault_line(asked, role, ", couldn't be written: ", kind));
    }
    let reasons = Explanation::new().line(fault_line(asked, role, ", couldn't be created: ", kind));
    match kind {
        ErrorKind::ResourceBusy => reasons.text(
            "it is open already: as a file that is read, or as standard output or error",
        ),
        _ => reasons,
    }
}

fn fault_line(asked: &Asked<'_>, role: Role, failed: &str, kind: ErrorKind) -> Comment {
    file_line(asked, role).text(failed).text(kind_text(kind))
}

// The first of these roles of which a call failed, and why.
fn first_fault<H: Host>(host: &H, roles: &[Role]) -> Option<(Role, Trace, ErrorKind)> {
    for role in roles {
        if let Some(trace) = host.trace(*role) {
            if let Some(kind) = trace.fault {
                return Some((*role, trace, kind));
            }
        }
    }
    None
}

/// What memory was wanted for: how far the files were read.
pub fn memory_reasons<H: Host>(asked: &Asked<'_>, host: &H) -> Explanation {
    Explanation::new().line(stage_line(asked, host)).text(
        "docs/GUIDE.md, 'When something goes wrong', says what needs less memory",
    )
}

fn stage_line<H: Host>(asked: &Asked<'_>, host: &H) -> Comment {
    match last_opened(host) {
        Some((Role::ProofIn, trace)) if !trace.has_ended => {
            file_line(asked, Role::ProofIn).text(", was being read when memory ran out")
        }
        _ if is_open(host, Role::ProofOut) => {
            file_line(asked, Role::ProofOut).text(", was being written when memory ran out")
        }
        Some((role, trace)) if !trace.has_ended => {
            file_line(asked, role).text(", was being read when memory ran out")
        }
        Some((role, _)) => file_line(asked, role).text(", had been read when memory ran out"),
        None => Comment::new().text("memory ran out before a file was opened"),
    }
}

// The last of the files that are read that was opened.
fn last_opened<H: Host>(host: &H) -> Option<(Role, Trace)> {
    let mut last = None;
    for role in &INPUTS {
        if let Some(trace) = host.trace(*role) {
            if trace.is_open {
                last = Some((*role, trace));
            }
        }
    }
    last
}

fn is_open<H: Host>(host: &H, role: Role) -> bool {
    match host.trace(role) {
        Some(trace) => trace.is_open,
        None => false,
    }
}

// Why the system refused a call.
fn kind_text(kind: ErrorKind) -> &'static str {
    match kind {
        ErrorKind::NotFound => "there is no such file or folder",
        ErrorKind::PermissionDenied => "permission denied",
        ErrorKind::AlreadyExists => "it exists already",
        ErrorKind::NotADirectory => "a part of the name is no folder",
        ErrorKind::IsADirectory => "it is a folder",
        ErrorKind::ReadOnlyFilesystem => "the file system is read-only",
        ErrorKind::FilesystemLoop => "too many links",
        ErrorKind::InvalidFilename => "the name is too long",
        ErrorKind::InvalidInput => "the name isn't valid",
        ErrorKind::StorageFull => "no space is left",
        ErrorKind::QuotaExceeded => "the quota is used up",
        ErrorKind::FileTooLarge => "the file is too large",
        ErrorKind::BrokenPipe => "its reader is gone",
        ErrorKind::ResourceBusy => "it is in use",
        ErrorKind::WriteZero => "nothing more is taken",
        ErrorKind::Interrupted => "signals broke it off",
        ErrorKind::OutOfMemory => "out of memory",
        _ => "the system refused",
    }
}
