// How many entries a cache may have.
ghost use Rattle.std.specs.Prelude.{◌≡◌, ◌≤◌};

/// So many entries, at least one.
#[derive(Drop)]
pub struct Capacity {
    pub entries: u32,
    ghost some: { 1 ≤ entries },
}

impl Capacity {
    pub fn new(entries: u32) -> Capacity
        requires { 1 ≤ entries }
        ensures { result.entries ≡ entries }
    {
        Capacity { entries }
    }
}
