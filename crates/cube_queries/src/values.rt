// Truth values of all variables, as an answer keeps them.
ghost use Rattle.std.specs.Prelude.{◌≡◌, IfOk};

use cnf_base::OutOfMemory;
use std::alloc::Global;

/// An assignment: the value of variable 1 first.
#[derive(Drop)]
pub struct Values {
    list: Vec<bool>,
}

impl std::marker::Model for Values {
    ghost use Rattle.std.specs.Prelude.{Bool, List};

    ghost Value = { List Bool };

    ghost view = { λ v. v.list.items };
}

impl Values {
    /// Keeps these values.
    pub(crate) fn of(alloc: Global, values: &[bool]) -> Result<Values, OutOfMemory>
        ensures { IfOk result (λ kept. kept ≡ values.now) }
    {
        let mut list = Vec::new(alloc);
        'values: for value in values {
            list.push(*value)?;
        }
        Ok(Values { list })
    }

    pub fn as_slice(&self) -> &[bool]
        ensures { result.now ≡ self.now }
    {
        self.list.as_slice()
    }
}
