//! Calls at several nodes.

ghost use Rattle.std.specs.Prelude.{◌≡◌, ◌<◌, [], ◌∷◌, length, vec_len, IfOk};
ghost use Rattle.served_console.specs.Asking.{NamesNodes, ask_of, ticks, asks_for, asks_of};
ghost use Rattle.served_console.specs.Nodes.{AsksAt, AsksThese};

use crate::node::OperatedNode;
use crate::told::Told;
use cs_base::NodeId;
use cs_runtime::Clock;
use node_calls::{NodeCall, NodeReply};
use node_console::{Command, ConsoleError};
use node_lock::Stepper;
use peer_messages::What;
use std::sync::Wait;

/// Asks this of the node at a place, and tells it behind what was told before.
fn ask_at<W: Wait, N: Stepper<Event = NodeCall, Reply = NodeReply>, C: Clock>(
    nodes: &mut Vec<OperatedNode<W, N, C>>,
    place: usize,
    what: What,
    told: Told,
) -> Told
    requires { place < vec_len nodes.old }
    ensures len { vec_len nodes.new ≡ vec_len nodes.old }
    ensures asks { AsksAt N.steps N.event_of N.reply_of N.refuses C.gives nodes.old.items place what told nodes.new.items result }
{
    let node = &mut nodes[place];
    let outcome = node.ask(what);
    told.and(&outcome)
}

/// Asks this of a node alone.
fn ask_one<W: Wait, N: Stepper<Event = NodeCall, Reply = NodeReply>, C: Clock>(
    nodes: &mut Vec<OperatedNode<W, N, C>>,
    node: NodeId,
    what: What,
) -> Told
    requires { node < vec_len nodes.old }
    ensures len { vec_len nodes.new ≡ vec_len nodes.old }
    ensures asks { AsksThese N.steps N.event_of N.reply_of N.refuses C.gives nodes.old.items (ask_of node what ∷ []) nodes.new.items result }
{
    ask_at(nodes, usize::from(node.number()), what, Told::nothing())
}

/// Tells each node the time, one after another.
fn ask_each<W: Wait, N: Stepper<Event = NodeCall, Reply = NodeReply>, C: Clock>(
    nodes: &mut Vec<OperatedNode<W, N, C>>,
) -> Told
    ensures len { vec_len nodes.new ≡ vec_len nodes.old }
    ensures asks { AsksThese N.steps N.event_of N.reply_of N.refuses C.gives nodes.old.items (ticks (length nodes.old.items)) nodes.new.items result }
{
    let mut told = Told::nothing();
    for place in 0..nodes.len() {
        told = ask_at(nodes, place, What::Tick, told);
    }
    told
}

/// Asks what a command says of the nodes that it names.
fn ask_for<W: Wait, N: Stepper<Event = NodeCall, Reply = NodeReply>, C: Clock>(
    nodes: &mut Vec<OperatedNode<W, N, C>>,
    command: &Command,
) -> Told
    requires { NamesNodes (vec_len nodes.old) command.now }
    ensures len { vec_len nodes.new ≡ vec_len nodes.old }
    ensures asks { AsksThese N.steps N.event_of N.reply_of N.refuses C.gives nodes.old.items (asks_for (length nodes.old.items) command.now) nodes.new.items result }
{
    match command {
        Command::Mark(node, peer, up) => ask_one(nodes, *node, What::Alive(*peer, *up)),
        Command::Flush(node) | Command::Merge(node) => ask_one(nodes, *node, What::Flush),
        Command::Status => ask_each(nodes),
        Command::Stop => Told::nothing(),
    }
}

/// Asks what a line says, where it is a command.
pub(crate) fn ask_by<W: Wait, N: Stepper<Event = NodeCall, Reply = NodeReply>, C: Clock>(
    nodes: &mut Vec<OperatedNode<W, N, C>>,
    said: &Result<Command, ConsoleError>,
) -> Told
    requires { IfOk said.now (λ command. NamesNodes (vec_len nodes.old) command) }
    ensures len { vec_len nodes.new ≡ vec_len nodes.old }
    ensures asks { AsksThese N.steps N.event_of N.reply_of N.refuses C.gives nodes.old.items (asks_of (length nodes.old.items) said.now) nodes.new.items result }
{
    match said {
        Ok(command) => ask_for(nodes, command),
        Err(_) => Told::nothing(),
    }
}
