// The roles in which the program meets files and streams.
ghost use Rattle.std.specs.Prelude.{◌≡◌, ◌<◌};
ghost use Rattle.host_io.specs.Files.{code_of};

/// What a file or a stream is to the program. `Cnf`, `Order`, `Buckets` (the order by which buckets are formed), `Schedule`,
/// `ProofIn` and `Cubes` (the questions about a formula) are opened and read, `ProofOut` and `Made` are created and written, `Out`
/// and `Err` are the standard streams.
#[derive(Clone, Copy, Debug)]
pub enum Role {
    Cnf,
    Order,
    Buckets,
    Schedule,
    ProofIn,
    Cubes,
    ProofOut,
    Made,
    Out,
    Err,
}

// The place of a role in a list of all.
pub(crate) fn place(role: Role) -> usize
    ensures place { result ≡ code_of role }
    ensures below { result < 10 }
{
    match role {
        Role::Cnf => 0,
        Role::Order => 1,
        Role::Buckets => 2,
        Role::Schedule => 3,
        Role::ProofIn => 4,
        Role::Cubes => 5,
        Role::ProofOut => 6,
        Role::Made => 7,
        Role::Out => 8,
        Role::Err => 9,
    }
}
