//! The lists of members in an order.

ghost use Rattle.std.specs.Prelude.{◌≡◌, ◌<◌, ℕ, List, IfOk, length};
ghost use Rattle.std.specs.List.{All};
ghost use Rattle.numbered_nodes.specs.Edges.{lists};
ghost use Rattle.node_groups.specs.Steps.{in_order};

use std::alloc::{AllocError, Global};

/// The lists that have members, in an order. AllocError where memory runs out.
pub fn collect(
    alloc: Global,
    members: &[Vec<usize>],
    order: &[usize],
) -> Result<Vec<Vec<usize>>, AllocError>
    requires { All (λ x. x < length members.now) order.now }
    ensures { IfOk result (λ v. lists v.items ≡ in_order (lists members.now) order.now) }
{
    let mut groups = Vec::new(alloc);
    for node in order {
        let row = members[*node].as_slice();
        if !row.is_empty() {
            groups.push(Vec::from_slice(alloc, row)?)?;
        }
    }
    Ok(groups)
}
