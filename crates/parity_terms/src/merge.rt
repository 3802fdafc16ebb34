// Two equations merged in the order of their variables.
ghost use Rattle.std.specs.Prelude.{IfOk};
ghost use Rattle.parity_terms.specs.Order.{AreApart, AreDifferent, AreInOrder};

use cnf_base::OutOfMemory;
use std::alloc::Global;

/// The variables that one of two equations has, and the other hasn't.
pub(crate) fn difference(
    alloc: Global,
    places: &[u32],
    one: &[u32],
    other: &[u32],
) -> Result<Vec<u32>, OutOfMemory>
    requires apart { AreApart places.now }
    requires one { AreInOrder places.now 0 one.now }
    requires other { AreInOrder places.now 0 other.now }
    ensures { IfOk result (λ sum. AreDifferent places.now one.now other.now sum.items) }
{
    let mut sum = Vec::new(alloc);
    let mut i = 0;
    let mut j = 0;
    'both: while i < one.len() && j < other.len() {
        let (u, v) = (one[i], other[j]);
        if u == v {
            i += 1;
            j += 1;
            continue;
        }
        let (own, place) = (places[u as usize - 1], places[v as usize - 1]);
        if own < place {
            sum.push(u)?;
            i += 1;
            continue;
        }
        sum.push(v)?;
        j += 1;
    }
    sum.extend_from_slice(&one[i..])?;
    sum.extend_from_slice(&other[j..])?;
    Ok(sum)
}
