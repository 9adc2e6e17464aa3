//! What holds of nodes that go on from a log, whatever lines and datagrams they are handed: contracts of functions that
//! do nothing.

ghost use Rattle.std.specs.Prelude.{◌≡◌, ℕ, List, Ok};
ghost use Rattle.gd_events.specs.Events.{Event};
ghost use Rattle.gd_events.specs.Ordered.{HoldSame};
ghost use Rattle.gd_grammar.specs.Drawings.{log};
ghost use Rattle.gd_grammar.specs.FieldBytes.{AreBytes};
ghost use Rattle.gd_model.specs.Drawing.{picture};
ghost use Rattle.gd_node.specs.GoingOn.{GoingOn, IsGoingOn, site_of};
ghost use Rattle.gd_protocol.specs.Nodes as new;
ghost use Rattle.gd_protocol.specs.Nodes.{IsNode, Node};
ghost use Rattle.gd_protocol.specs.Sites.{IsWell};
ghost use Rattle.gd_reference.specs.DrawingText.{text};
ghost use Rattle.gd_reference.specs.Rejoin.{node_header};
ghost use Rattle.gd_reference.specs.SlowSite.{resumed};

use gd_protocol::nodes::nodes_that_hold_the_same_show_the_same;

/// A log of a node's header, whoever wrote it, gives a site that keeps itself well, and it stays so in a run that goes
/// on from it.
pub fn a_log_gives_a_well_site()
    ensures begun { (me sites session : ℕ) (contents : List ℕ) (events : List Event)
        → AreBytes contents → log contents ≡ Ok (node_header me sites session, events)
        → IsWell (resumed me sites session events) }
    ensures stays { (n : GoingOn) → IsGoingOn n → IsWell (site_of n) }
{}

/// A node that goes on from a log prints the same text as any other that holds the same events: one that goes on, or a
/// new one.
pub fn nodes_that_go_on_show_the_same()
    ensures both { (n m : GoingOn) → IsGoingOn n → IsGoingOn m
        → HoldSame (site_of n).held (site_of m).held
        → text (picture (site_of n).held) ≡ text (picture (site_of m).held) }
    ensures new { (n : GoingOn) (m : Node) → IsGoingOn n → IsNode m
        → HoldSame (site_of n).held (new.site_of m).held
        → text (picture (site_of n).held) ≡ text (picture (new.site_of m).held) }
{
    nodes_that_hold_the_same_show_the_same();
}
