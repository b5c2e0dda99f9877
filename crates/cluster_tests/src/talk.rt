//! Conversations with nodes, in words.

use crate::lines::{self, Partner};
use crate::plans::ask;
use crate::site::Site;
use crate::stores::{setting, store};
use crate::told::tell;
use crate::words::{node, number, outcome, word};
use cs_base::{Items, Micros, NodeId, ReqId};
use list_replica::MemListReplica;
use node_core::StepError;
use peer_messages::{Body, Message, Outputs, What};
use replica::MemReplica;
use std::alloc::{AllocError, Global};
use std::mem;

/// Nodes by number, the messages that they sent and that none of them has heard, the oldest first, and what all clocks show.
#[derive(Drop)]
struct Talk<R: MemReplica> {
    nodes: Vec<Site<R>>,
    mail: Vec<Message>,
    clock: u64,
}

/// A node of a ring of so many, on a store of this kind.
fn loaded<R: MemReplica>(alloc: Global, line: &str) -> Result<Site<R>, AllocError> {
    let setting = setting(alloc, word(line, 2))?;
    let store = store(alloc, word(line, 3))?;
    Site::load(alloc, node(word(line, 1)), setting, store)
}

/// `crash NODE OUTCOME`: one of three nodes, once it has crashed and is loaded again.
fn reloaded<R: MemReplica>(
    alloc: Global,
    site: Site<R>,
    line: &str,
) -> Result<Site<R>, AllocError> {
    let store = site.crashed(outcome(word(line, 2)));
    let setting = setting(alloc, "3")?;
    Site::load(alloc, node(word(line, 1)), setting, store)
}

/// `ack NODE FROM TIME`: a node's acknowledgement of node 0's write at this time.
fn acknowledgement(line: &str) -> Message {
    let time = Micros::new(number(word(line, 3)));
    Message {
        from: node(word(line, 2)),
        upto: NodeId::FIRST,
        time: Micros::new(2),
        born: time,
        request: ReqId {
            node: NodeId::FIRST,
            time,
        },
        body: Body::WriteAck,
    }
}

/// `hear NODE FROM` or `judge NODE FROM`: the newest message of a node to another. Where there is none it is an error.
fn newest(mail: &mut Vec<Message>, line: &str) -> Result<What, AllocError> {
    let (upto, from) = (node(word(line, 1)), node(word(line, 2)));
    let mut place = mail.len();
    for (index, message) in mail.iter().enumerate() {
        if message.from == from && message.upto == upto {
            place = index;
        }
    }
    if place >= mail.len() {
        return Err(AllocError);
    }
    Ok(What::Deliver(mail.remove(place)))
}

/// `date SENT BORN`: all messages were sent and born at these times.
fn date(mail: &mut Vec<Message>, line: &str) {
    let sent = Micros::new(number(word(line, 1)));
    let born = Micros::new(number(word(line, 2)));
    for message in mail {
        message.time = sent;
        message.born = born;
    }
}

/// What a line lets come to a node.
fn what(mail: &mut Vec<Message>, alloc: Global, line: &str) -> Result<What, AllocError> {
    let peer = node(word(line, 2));
    match word(line, 0) {
        "hear" | "judge" => newest(mail, line),
        "ack" => Ok(What::Deliver(acknowledgement(line))),
        "up" => Ok(What::Alive(peer, true)),
        "down" => Ok(What::Alive(peer, false)),
        "tick" => Ok(What::Tick),
        "flush" => Ok(What::Flush),
        _ => Ok(What::Client(ask(alloc, line)?)),
    }
}

/// Puts the messages that a step sends behind others.
fn post(
    mail: &mut Vec<Message>,
    alloc: Global,
    step: &mut Result<Outputs, StepError>,
) -> Result<(), AllocError> {
    match step {
        Ok(outputs) => {
            let mut sends = mem::replace(&mut outputs.sends, Items::new(alloc)).into_vec();
            mail.append(&mut sends)
        }
        Err(_) => Ok(()),
    }
}

/// Tells what a line's step tells, where these nodes are dead, and posts what it sends.
fn tell_and_post(
    mail: &mut Vec<Message>,
    alloc: Global,
    out: &mut String,
    line: &str,
    step: &mut Result<Outputs, StepError>,
    dead: &[NodeId],
) -> Result<(), AllocError> {
    tell(out, word(line, 0), step, dead)?;
    post(mail, alloc, step)
}

/// A node takes what comes.
fn step<R: MemReplica>(
    site: &mut Site<R>,
    mail: &mut Vec<Message>,
    clock: u64,
    alloc: Global,
    out: &mut String,
    line: &str,
) -> Result<(), AllocError> {
    let what = what(mail, alloc, line)?;
    let mut step = site.step(alloc, clock, what);
    tell_and_post(mail, alloc, out, line, &mut step, site.down())
}

impl<R: MemReplica> Talk<R> {
    fn new(alloc: Global) -> Talk<R> {
        Talk {
            nodes: Vec::new(alloc),
            mail: Vec::new(alloc),
            clock: 0,
        }
    }

    /// `load NODE RING STORE`: the next node joins. With node 0 all begins anew.
    fn load(&mut self, alloc: Global, line: &str) -> Result<(), AllocError> {
        if word(line, 1) == "0" {
            self.nodes.clear();
            self.mail.clear();
            self.clock = 0;
        }
        self.nodes.push(loaded(alloc, line)?)?;
        Ok(())
    }

    /// A node crashes and is loaded again.
    fn crash(&mut self, alloc: Global, line: &str) -> Result<(), AllocError> {
        let place = usize::from(node(word(line, 1)).number());
        if place < self.nodes.len() {
            let node = reloaded(alloc, self.nodes.remove(place), line)?;
            self.nodes.insert(place, node)?;
        }
        Ok(())
    }

    /// A fault is to come at a call of the node's store.
    fn plan_fault(&mut self, line: &str) {
        let place = usize::from(node(word(line, 1)).number());
        if let Some(site) = self.nodes.get_mut(place) {
            site.plan_fault(line);
        }
    }

    /// `clock MICROS`, `date SENT BORN` or `fault NODE CALL HOW OUTCOME`.
    fn set(&mut self, line: &str) {
        match word(line, 0) {
            "clock" => self.clock = number(word(line, 1)),
            "date" => date(&mut self.mail, line),
            _ => self.plan_fault(line),
        }
    }

    /// A node takes what comes.
    fn go_on(&mut self, alloc: Global, out: &mut String, line: &str) -> Result<(), AllocError> {
        let clock = self.clock;
        let place = usize::from(node(word(line, 1)).number());
        match self.nodes.get_mut(place) {
            Some(site) => step(site, &mut self.mail, clock, alloc, out, line),
            None => out.push_str(" no node"),
        }
    }

    /// `often LINE`: takes a line 512 times, and tells what it tells then.
    fn repeat(&mut self, alloc: Global, out: &mut String, line: &str) -> Result<(), AllocError> {
        let (_, line) = line.split_once(' ').unwrap_or((line, ""));
        let mut told = String::new(alloc);
        for _ in 0..512 {
            told.clear();
            self.go_on(alloc, &mut told, line)?;
        }
        out.push_str(told.as_str())
    }
}

impl<R: MemReplica> Partner for Talk<R> {
    fn take(&mut self, alloc: Global, out: &mut String, line: &str) -> Result<(), AllocError> {
        match word(line, 0) {
            "often" => self.repeat(alloc, out, line),
            "load" => self.load(alloc, line),
            "crash" => self.crash(alloc, line),
            "clock" | "date" | "fault" => {
                self.set(line);
                Ok(())
            }
            _ => self.go_on(alloc, out, line),
        }
    }
}

fn unlike_over<R: MemReplica>(alloc: Global, talk: &str) -> Result<String, AllocError> {
    lines::unlike(alloc, Talk::<R>::new(alloc), talk)
}

/// The first line of a conversation with nodes over lists in memory that goes otherwise, or nothing. That the nodes are over such
/// lists stands here alone: a proof over a type of a replica of its own costs much more.
pub(crate) fn unlike(alloc: Global, talk: &str) -> Result<String, AllocError> {
    unlike_over::<MemListReplica>(alloc, talk)
}
