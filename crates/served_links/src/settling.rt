//! How the ends are laid beside one another once no node steps any more.

ghost use Rattle.std.specs.Prelude.{◌≡◌, ◌+◌, ◌<◌, ◌≤◌, [], ◌∷◌, ◌++◌, List, map, vec_len, vec_capacity};
ghost use Rattle.served_links.specs.Ends.{EachLink, AreEven};
ghost use Rattle.served_links.specs.Nodes.{NodeMet, ends_of, AreEnds, AreSettled};
ghost use Rattle.served_links.specs.Meetings.{AreMet, IsMet, meeting};

use crate::ends::NodeLinks;
use node_links::Receiver;
use node_workers::Receivers;
use peer_messages::Message;
use wired_node::NodeSender;

/// Looks at each link as a whole: what was taken from it begins what was put into it.
pub fn settle(all: Vec<NodeLinks>)
    requires even { (nodes : _) × AreEven nodes (map ends_of all.items) }
    requires links { EachLink AreEnds (map ends_of all.items) }
    ensures { EachLink AreSettled (map ends_of all.items) }
{
    let mut rest = all;
    if let Some(last) = rest.pop() {
        settle(settle_with(rest, last.senders, last.receivers.into_vec()));
    }
}

/// Settles the links of a node with those before it, and leaves these their links with one another.
fn settle_with(
    before: Vec<NodeLinks>,
    senders: Vec<NodeSender>,
    receivers: Vec<Receiver<Message>>,
) -> Vec<NodeLinks>
    requires { (mets : List NodeMet) × AreMet AreEnds mets (map ends_of before.items) senders.items receivers.items }
    ensures settled { (mets : List NodeMet) × AreMet AreSettled mets (map ends_of before.items) senders.items receivers.items × (map (λ m. m.before) mets ≡ map ends_of result.items) }
    ensures room { (vec_len result ≡ vec_len before) × (vec_capacity result ≡ vec_capacity before) }
{
    let mut before = before;
    let mut senders = senders;
    let mut receivers = receivers;
    let Some(node) = before.pop() else {
        return before;
    };
    let sender = senders.pop().unwrap();
    let receiver = receivers.pop().unwrap();
    let node = part(node, sender, receiver);
    let mut rest = settle_with(before, senders, receivers);
    rest.push_reserved(node);
    rest
}

/// Settles the two links between two nodes, and takes their ends from the node.
fn part(node: NodeLinks, sender: NodeSender, receiver: Receiver<Message>) -> NodeLinks
    requires { (before : _) × IsMet AreEnds (meeting before (ends_of node) sender receiver) }
    ensures { IsMet AreSettled (meeting (ends_of result) (ends_of node) sender receiver) }
{
    let mut senders = node.senders;
    let mut receivers = node.receivers.into_vec();
    let to_other = senders.pop().unwrap();
    let from_other = receivers.pop().unwrap();
    settle_one(sender, from_other);
    settle_one(to_other, receiver);
    NodeLinks {
        senders,
        receivers: Receivers::from_vec(receivers),
    }
}

/// Looks at a link as a whole.
fn settle_one(sender: NodeSender, receiver: Receiver<Message>)
    requires { AreEnds sender receiver }
    ensures { AreSettled sender receiver }
{
    let mut sender = sender;
    let mut receiver = receiver;
    receiver.finish(&mut sender.sender);
}
