//! Laws of the definitions. Each function stands for the law that its contract names.
ghost use Rattle.nl_tree.specs.TreeLaws.{TreeLaws};
ghost use Rattle.nl_tree.specs.CountLaws.{CountLaws};
ghost use Rattle.nl_tree.specs.EntriesLaws.{EntriesLaws};
ghost use Rattle.nl_tree.specs.TreeOfNodes.{TreeOfNodes};
ghost use Rattle.nl_tree.specs.GraphLaws.{AddedEntryAddsPath};
ghost use Rattle.nl_tree.specs.GraphChanges.{GraphChanges};
ghost use Rattle.nl_tree.specs.GraphTree.{GraphIsTree};
ghost use Rattle.nl_tree.specs.NodeCharges.{NodeCharges};
ghost use Rattle.nl_tree.specs.SumChanges.{SumChanges};
ghost use Rattle.nl_tree.specs.FaultLaws.{FaultLaws};

// What is at each path after a change of a tree.
pub fn tree_changes()
    ensures { TreeLaws }
{}

// Sums over the entries of a tree.
pub fn count_laws()
    ensures { CountLaws }
{}

// What the entries of a directory are.
pub fn entries_laws()
    ensures { EntriesLaws }
{}

// Nodes of which each is reached by one path represent a tree.
pub fn tree_of_nodes()
    ensures { TreeOfNodes }
{}

// An entry that is added to a directory adds a path.
pub fn added_entry()
    ensures { AddedEntryAddsPath }
{}

// An entry removed or moved, and a file changed: what these changes of nodes do to the tree.
pub fn graph_changes()
    ensures { GraphChanges }
{}

// What nodes represent is a tree.
pub fn graph_is_tree()
    ensures { GraphIsTree }
{}

// The charges of a tree, from its nodes.
pub fn node_charges()
    ensures { NodeCharges }
{}

// Sums over nodes after a change.
pub fn sum_changes()
    ensures { SumChanges }
{}

// A count of faults that rises gives each failed line a number of its own, below the top.
pub fn fault_laws()
    ensures { FaultLaws }
{}
