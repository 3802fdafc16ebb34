// What the system is asked for, as the code names it where it asks.

/// The file of this name, to be opened or created, or a standard stream.
#[derive(Clone, Copy, Drop)]
pub(crate) enum Reach<'a> {
    Opened(&'a str),
    Created(&'a str),
    Output,
    Error,
}
