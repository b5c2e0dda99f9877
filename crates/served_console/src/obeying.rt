//! What a line does.

ghost use Rattle.std.specs.Prelude.{◌≡◌, ◌≤◌, vec_len};
ghost use Rattle.served_console.specs.Answers.{answer_unless, answer_by as answered_by, turned_by};
ghost use Rattle.served_console.specs.Nodes.{Obeys};

use crate::answer::Answer;
use crate::asking::ask_by;
use crate::node::OperatedNode;
use crate::told::Told;
use cs_runtime::Clock;
use node_calls::{NodeCall, NodeReply};
use node_console::{Command, ConsoleError, read_line};
use node_lock::Stepper;
use std::sync::Wait;

/// The answer to a line, and whether the console goes on behind it.
#[derive(Clone, Copy, Debug, PartialEq, Eq)]
pub(crate) struct Turned {
    pub answer: Answer,
    pub goes_on: bool,
}

/// A refusal is told in place of the answer.
fn unless_refused(told: Told, answer: Answer) -> Answer
    ensures { result ≡ answer_unless told.refused answer }
{
    match told.refused {
        Some(refusal) => Answer::Refused(refusal),
        None => answer,
    }
}

fn answer_by(said: &Result<Command, ConsoleError>, told: Told) -> Answer
    ensures { result ≡ answered_by said.now told }
{
    match said {
        Err(_) => Answer::Unknown,
        Ok(Command::Stop) => Answer::Nothing,
        Ok(Command::Mark(..) | Command::Status) => unless_refused(told, Answer::Done),
        Ok(Command::Flush(_) | Command::Merge(_)) => {
            unless_refused(told, Answer::Tables(told.tables))
        }
    }
}

/// Where a node failed nothing is told, and the console goes on no more.
fn result_of(said: &Result<Command, ConsoleError>, told: Told) -> Turned
    ensures { result ≡ turned_by said.now told }
{
    if told.failed {
        return Turned {
            answer: Answer::Nothing,
            goes_on: false,
        };
    }
    Turned {
        answer: answer_by(said, told),
        goes_on: !matches!(said, Ok(Command::Stop)),
    }
}

/// Does what a line says.
pub(crate) fn obey<W: Wait, N: Stepper<Event = NodeCall, Reply = NodeReply>, C: Clock>(
    nodes: &mut Vec<OperatedNode<W, N, C>>,
    line: &[u8],
) -> Turned
    requires { (1 ≤ vec_len nodes.old) × (vec_len nodes.old ≤ 7) }
    ensures len { vec_len nodes.new ≡ vec_len nodes.old }
    ensures obeys { Obeys N.steps N.event_of N.reply_of N.refuses C.gives nodes.old.items line.now nodes.new.items result }
{
    let said = read_line(line, nodes.len() as u8);
    let told = ask_by(nodes, &said);
    result_of(&said, told)
}
