//! What holds of the definitions of the graph.
ghost use Rattle.std.specs.Prelude.{List};
ghost use Rattle.mod_graph.specs.declared.entries.Entry.{Entry};
ghost use Rattle.mod_graph.specs.Edges.{ReachIsClosure, LoopsAreClasses, NeedsAreLeast};
ghost use Rattle.mod_graph.specs.Laws.{OrderOfFilesIsNothing, OrderIsOne, NeedsComeFirst, ErrorsAreInOrder};

/// What a node reaches is the transitive closure of the edges.
pub fn reach_is_closure()
    ensures { (es : List Entry) → ReachIsClosure es }
{}

/// Two nodes are of one loop exactly where their modules are the same or each reaches the other.
pub fn loops_are_classes()
    ensures { (es : List Entry) → LoopsAreClasses es }
{}

/// What a node needs is the least set with all that it reaches and, with each node of another loop, all nodes of that
/// loop and what these reach.
pub fn needs_are_least()
    ensures { (es : List Entry) → NeedsAreLeast es }
{}

/// The order in which the files are handed in changes nothing.
pub fn order_of_files_is_nothing()
    ensures { OrderOfFilesIsNothing }
{}

/// There is one order.
pub fn order_is_one()
    ensures { OrderIsOne }
{}

/// A node before which there is no cycle stands behind all that it needs.
pub fn needs_come_first()
    ensures { NeedsComeFirst }
{}

/// The diagnostics of a node stand in the order of their places, numbers and texts, each once.
pub fn errors_are_in_order()
    ensures { ErrorsAreInOrder }
{}
