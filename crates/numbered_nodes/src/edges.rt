//! Graphs on the nodes 0, 1, .., given by the targets of each.

ghost use Rattle.std.specs.Prelude.{◌≡◌, ◌<◌, ◌↔◌, ℕ, IsTrue};
ghost use Rattle.std.specs.List.{All};
ghost use Rattle.numbered_nodes.specs.Edges.{lists, InRange};

/// Whether all numbers of a list are below a count.
fn are_below(numbers: &[usize], count: usize) -> bool
    ensures { IsTrue result ↔ All (λ b. b < count) numbers.now }
{
    for number in numbers {
        if *number >= count {
            return false;
        }
    }
    true
}

/// Whether all targets of a graph are below a count of nodes: what the searches ask of their graph.
pub fn are_in_range(graph: &[Vec<usize>], count: usize) -> bool
    ensures { IsTrue result ↔ InRange (lists graph.now) count }
{
    for targets in graph {
        if !are_below(targets, count) {
            return false;
        }
    }
    true
}
