// The numbers of a node's defining clauses: they are consecutive, and a clause that a constant makes true has none.
ghost use Rattle.std.specs.Prelude.{◌≡◌, ◌≤◌, ◌+◌};
ghost use Rattle.cnf_base.specs.ProofText.{given_if, max_id};
ghost use Rattle.node_table.specs.Defined.{defs_of, is_false_node, is_true_node};

use crate::node::{Branch, Defs, Node};
use cnf_base::Id;

/// The numbers of a node's clauses, in the order HU, LU, HD, LD.
pub fn defs_of(branch: &Branch) -> Defs
    requires { branch.now.first ≤ max_id + 1 }
    ensures { result ≡ defs_of branch.now }
{
    let up_high = !is_false(branch.high);
    let up_low = !is_false(branch.low);
    let down_high = !is_true(branch.high);
    let down_low = !is_true(branch.low);
    let lu = branch.first + u64::from(up_high);
    let hd = lu + u64::from(up_low);
    let ld = hd + u64::from(down_high);
    Defs {
        hu: id_if(up_high, branch.first),
        lu: id_if(up_low, lu),
        hd: id_if(down_high, hd),
        ld: id_if(down_low, ld),
    }
}

fn id_if(given: bool, number: u64) -> Option<Id>
    ensures { result ≡ given_if given number }
{
    if given { Some(Id(number)) } else { None }
}

fn is_false(node: Node) -> bool
    ensures { result ≡ is_false_node node }
{
    matches!(node, Node::False)
}

fn is_true(node: Node) -> bool
    ensures { result ≡ is_true_node node }
{
    matches!(node, Node::True)
}
