// What a host knows of a role's calls, for a text that tells why one failed.
use std::io::ErrorKind;

/// Whether the role's file was opened or created, whether its end was read, and why the system refused the last call that failed.
#[derive(Clone, Copy, Debug)]
pub struct Trace {
    pub is_open: bool,
    pub has_ended: bool,
    pub fault: Option<ErrorKind>,
}
