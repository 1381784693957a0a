//! Laws of sending containers to workspaces.
ghost use Rattle.law_workspaces.specs.Sent.{SendsInOrder, SendsNewInOrder};

/// Sending a container to a workspace that is there leaves the order of recency of all nodes as it was.
pub fn a_sending_keeps_recency()
    ensures { SendsInOrder }
{}

/// A workspace that is made for a container is the least recent of all, and the others keep their order.
pub fn a_sending_to_a_new_workspace_keeps_recency()
    ensures { SendsNewInOrder }
{}
