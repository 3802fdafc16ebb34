// Laws of equations, over everything: functions without work, whose clauses the crates above cite by a call.
ghost use Rattle.parity_equations.specs.Laws.{ClausesSay, Independent};
ghost use Rattle.parity_equations.specs.OwnClauses.{OwnClauses};

/// An equation's clauses hold exactly where the sum of its variables is its bit.
pub fn clauses_law()
    ensures { ClausesSay }
{}

/// Equations that are sums of rows with places of their own, as Gauss leaves them, aren't in conflict.
pub fn independence_law()
    ensures { Independent }
{}

/// The clauses of equations are over their variables, and together no more than the formula has.
pub fn own_clauses_law()
    ensures { OwnClauses }
{}
