// Orders of the variables.
ghost use Rattle.std.specs.Prelude.{◌≡◌, IfOk};
ghost use Rattle.cnf_base.specs.Order.{natural, IsOrder};

use cnf_base::OutOfMemory;
use std::alloc::Global;
use std::marker::Model;

/// An order of the variables 1, 2, .. up to their number: the first is the top one.
#[derive(Drop)]
pub struct Order {
    variables: Vec<u32>,
}

impl Model for Order {
    ghost use Rattle.std.specs.Prelude.{ℕ, List};
    ghost use Rattle.cnf_base.specs.Order.{IsOrder};

    ghost Value = { List ℕ };

    ghost view = { λ o. o.variables.items };

    ghost invariant = { λ o. IsOrder o.variables.items };
}

impl Order {
    /// The variables by rising number.
    pub fn natural(alloc: Global, vars: u32) -> Result<Order, OutOfMemory>
        ensures { IfOk result (λ order. order ≡ natural vars) }
    {
        let mut variables = Vec::new(alloc);
        for i in 0..vars {
            variables.push(i + 1)?;
        }
        Ok(Order { variables })
    }

    /// The order in which the variables stand here, the top one first.
    pub fn of_variables(variables: Vec<u32>) -> Order
        requires { IsOrder variables.items }
        ensures { result ≡ variables.items }
    {
        Order { variables }
    }

    /// The variables, the top one first. Each stands once.
    pub fn as_slice(&self) -> &[u32]
        ensures value { result.now ≡ self.now }
        ensures order { IsOrder self.now }
    {
        self.variables.as_slice()
    }
}
