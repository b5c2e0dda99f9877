//! What is sent and entered. Room for an event is made before it; then it is entered without memory.

ghost use Rattle.std.specs.Prelude.{◌≡◌, ◌++◌, [], ◌∷◌, OnOk};
ghost use Rattle.peer_messages.specs.declared.chronicle.Entry.TheVariants as entry;
ghost use Rattle.cluster_model.specs.declared.turn.Turn.TheVariants as turns;
ghost use Rattle.cluster_model.specs.Mails.{HoldsMail};
ghost use Rattle.cluster_model.specs.Annals.{HasRoom, IsSame, Enters, entries_of};

use crate::entering::{enter_piece, remaining};
use crate::mail::Mail;
use crate::turn::Turn;
use chronicle_pieces::{Alive, Halted, Piece, Stepped};
use cs_base::NodeId;
use node_core::Lost;
use peer_messages::Outputs;
use std::alloc::AllocError;

/// The messages, and the entries of the chronicle in order, one piece for each event that entered some.
#[derive(Drop)]
pub(crate) struct Annals {
    pub mail: Mail,
    pub pieces: Vec<Piece>,
}

impl Annals {
    /// Makes room for what one event enters and sends.
    pub fn make_room(&mut self) -> Result<(), AllocError>
        requires { HoldsMail self.old.mail }
        ensures same { IsSame self.old self.new }
        ensures room { OnOk result (HasRoom self.new) }
    {
        self.mail.sort_in()?;
        self.pieces.reserve(1)
    }

    /// Enters and sends the outputs of a step.
    fn enter_step(&mut self, node: NodeId, outputs: Outputs, alive: Alive)
        requires mail { HoldsMail self.old.mail }
        requires room { HasRoom self.old }
        ensures { (asks : _) → Enters node asks (turns.Stepped outputs alive) self.old self.new }
    {
        let Outputs {
            time,
            started,
            sends,
            entries,
            tables,
            refused: _,
        } = outputs;
        let step = Stepped {
            node,
            started,
            alive,
            time,
            entries,
            tables,
        };
        enter_piece(&mut self.pieces, Piece::Stepped(step));
        self.mail.send(sends);
    }

    /// Enters what remains of a step in which its node stopped.
    fn enter_stop(&mut self, node: NodeId, lost: Lost, has_failed: bool)
        requires mail { HoldsMail self.old.mail }
        requires room { HasRoom self.old }
        ensures { (asks : _) → Enters node asks (turns.Stopped lost has_failed) self.old self.new }
    {
        let Lost { started, entries } = lost;
        let halt = Halted {
            node,
            started,
            entries: remaining(entries),
            has_failed,
        };
        enter_piece(&mut self.pieces, Piece::Halted(halt));
    }

    /// Enters and sends what comes of an event.
    pub fn enter(&mut self, node: NodeId, is_ask: bool, turn: Turn)
        requires mail { HoldsMail self.old.mail }
        requires room { HasRoom self.old }
        ensures { Enters node is_ask turn self.old self.new }
    {
        match turn {
            Turn::Stepped(outputs, alive) => self.enter_step(node, outputs, alive),
            Turn::Stopped(lost, has_failed) => self.enter_stop(node, lost, has_failed),
            Turn::Refused(refusal) => {
                if is_ask {
                    enter_piece(&mut self.pieces, Piece::Turned(node, refusal));
                }
            }
            Turn::NoNode => {}
        }
    }

    /// Enters that a load failed.
    pub fn enter_failure(&mut self, node: NodeId)
        requires { HasRoom self.old }
        ensures entries { entries_of self.new ≡ entries_of self.old ++ entry.Stopped node ∷ [] }
        ensures mail { self.new.mail ≡ self.old.mail }
    {
        enter_piece(&mut self.pieces, Piece::Failed(node));
    }
}
