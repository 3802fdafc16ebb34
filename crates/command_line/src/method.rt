// The methods by which an order of the variables is found, by their names.
ghost use Rattle.std.specs.Prelude.{◌≡◌};
ghost use Rattle.command_line.specs.Command.{method_named};

/// A method that finds an order.
#[derive(Clone, Copy)]
pub enum OrderMethod {
    /// Approximate minimum degree (Amestoy, Davis, Duff 1996).
    Degree,
    /// Maximum cardinality search (Tarjan, Yannakakis 1984).
    Cardinality,
    /// Reverse Cuthill-McKee (Cuthill, McKee 1969).
    Levels,
    /// Distance against degree (Sloan 1986).
    Profile,
}

pub fn method_named(name: &str) -> Option<OrderMethod>
    ensures { result ≡ method_named name.now }
{
    if name == "degree" {
        Some(OrderMethod::Degree)
    } else if name == "cardinality" {
        Some(OrderMethod::Cardinality)
    } else if name == "levels" {
        Some(OrderMethod::Levels)
    } else if name == "profile" {
        Some(OrderMethod::Profile)
    } else {
        None
    }
}
