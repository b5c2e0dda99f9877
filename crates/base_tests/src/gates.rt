//! Signs at which the program stops, and gates that requests pass.

use cs_base::NodeId;
use cs_io::{Gate, HoldGate, NeverStop, OpenGate, Passage, Point, StopSign};
use std::test::Fail;
use std::thread::join;

// Answers true from the look of this number on.
#[derive(Drop)]
struct StopAt {
    look: u32,
    looks: u32,
}

impl StopSign for StopAt {
    ghost use Rattle.std.specs.Prelude.{nat_le};

    ghost has_answered = { λ s. nat_le s.look s.looks };

    fn raised(&mut self) -> bool {
        self.looks = self.looks.saturating_add(1);
        self.look <= self.looks
    }
}

#[test]
fn a_sign_stays_raised(rt: HostRuntime) -> Result<(), Fail> {
    let mut sign = StopAt { look: 2, looks: 0 };
    let looks = [sign.raised(), sign.raised(), sign.raised()];
    assert!(rt; looks == [false, true, true]);
    let mut never = NeverStop;
    assert!(rt; [never.raised(), never.raised()] == [false; 2]);
    Ok(())
}

const MOST_TURNS: u64 = 1_000_000;

fn hold(other: NodeId, turns: u64) -> HoldGate {
    let held = Passage {
        node: NodeId::FIRST,
        point: Point::Taken,
        number: 2,
    };
    let until = Passage {
        node: other,
        point: Point::Answered,
        number: 1,
    };
    HoldGate::new(held, until, turns)
}

#[test]
fn a_request_is_held_until_another_is_answered(rt: HostRuntime) -> Result<(), Fail> {
    OpenGate.pass(NodeId::FIRST, Point::Taken);
    let other = NodeId::new(6).expect(&rt, "a node");
    let gate = hold(other, MOST_TURNS);
    gate.pass(NodeId::FIRST, Point::Taken);
    gate.pass(other, Point::Taken);
    assert!(rt; gate.count(other, Point::Answered) == 0);
    let (answers, _) = join(
        &rt,
        || {
            gate.pass(NodeId::FIRST, Point::Taken);
            gate.count(other, Point::Answered)
        },
        || gate.pass(other, Point::Answered),
    );
    assert!(rt; answers == 1);
    assert!(rt; gate.count(NodeId::FIRST, Point::Taken) == 2);
    Ok(())
}

#[test]
fn a_request_is_held_no_longer_than_its_turns(rt: HostRuntime) -> Result<(), Fail> {
    let gate = hold(NodeId::FIRST, 3);
    gate.pass(NodeId::FIRST, Point::Taken);
    gate.pass(NodeId::FIRST, Point::Taken);
    assert!(rt; gate.count(NodeId::FIRST, Point::Taken) == 2);
    assert!(rt; gate.count(NodeId::FIRST, Point::Answered) == 0);
    Ok(())
}
