//! Laws of links.

ghost use Rattle.served_links.specs.Nodes.{SameEndsStayLinked};

/// Nodes that have the ends that `spread` gave them, whatever went through these, can be settled.
pub fn same_ends_stay_linked()
    ensures { SameEndsStayLinked }
{}
