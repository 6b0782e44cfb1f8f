ghost use Rattle.spectro_hmltext.specs.NodeLaws.{
  EachLineHasANodeOrAFault,
  EachLineHasAtMostOneFault,
  EachLineHasAtMostOneNode,
  LinesOfNodesHaveNoFault,
  WrittenNodesAreRead,
};

/// A line is of at most one node at a place.
pub fn a_line_has_at_most_one_node()
    ensures { EachLineHasAtMostOneNode }
{}

/// A line has at most one fault at a place.
pub fn a_line_has_at_most_one_fault()
    ensures { EachLineHasAtMostOneFault }
{}

/// The line of a node has no fault at the place of the node.
pub fn lines_of_nodes_have_no_fault()
    ensures { LinesOfNodesHaveNoFault }
{}

/// Each line is of a node at a place or has a fault there.
pub fn a_line_has_a_node_or_a_fault()
    ensures { EachLineHasANodeOrAFault }
{}

/// The line that is written for a node is read as this node at its place, where the numbers are not too great.
pub fn written_nodes_are_read()
    ensures { WrittenNodesAreRead }
{}
