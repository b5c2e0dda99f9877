//! What the jobs of a node are given, and what they give back.

ghost use Rattle.std.specs.Prelude.{◌≡◌};

use crate::assembling::duties_for;
use crate::parting::{door_failed_in, take_back, unstarted_in};
use node_workers::{Ended, Receivers};
use served_jobs::Duty;
use served_links::spread;
use served_nodes::JobLeft;
use std::alloc::{AllocError, Global};
use std::test::Fail;

// The receivers of a node that is linked with two others.
fn two_receivers(alloc: Global) -> Result<Receivers, AllocError> {
    match spread(alloc, 3)?.pop() {
        Some(links) => Ok(links.receivers),
        None => Err(AllocError),
    }
}

fn door_in(duty: &Duty<u16>) -> Option<u16> {
    match duty {
        Duty::Connections(door) => Some(*door),
        Duty::Links(_) | Duty::Ticks | Duty::Merges => None,
    }
}

fn left_with(duty: Duty<u16>, door_failed: bool, unstarted: bool) -> JobLeft<u16>
    ensures { result.duty ≡ duty }
{
    JobLeft {
        duty,
        ended: Ended {
            failed: false,
            held: None,
        },
        door_failed,
        unstarted,
    }
}

#[test]
fn each_door_has_a_job_behind_those_of_the_workers(rt: HostRuntime) -> Result<(), Fail> {
    let receivers = two_receivers(rt.alloc())?;
    let doors = Vec::from_slice(rt.alloc(), &[7, 5])?;
    let duties = duties_for(rt.alloc(), receivers, doors)?;
    let found: Vec<Option<u16>> = duties.iter().map(door_in).collect(rt.alloc())?;
    assert_eq!(rt;
        found.as_slice(),
        [None, None, None, Some(7), Some(5)].as_slice()
    );
    assert!(rt;
        matches!(
            duties.as_slice(),
            [Duty::Links(_), Duty::Ticks, Duty::Merges, ..]
        )
    );
    Ok(())
}

#[test]
fn jobs_give_back_receivers_and_doors(rt: HostRuntime) -> Result<(), Fail> {
    let receivers = two_receivers(rt.alloc())?;
    let jobs = vec![in rt.alloc();
        left_with(Duty::Links(receivers), false, false),
        left_with(Duty::Ticks, false, true),
        left_with(Duty::Connections(7), false, false),
        left_with(Duty::Merges, false, false),
        left_with(Duty::Connections(5), false, false),
    ]?;
    assert!(rt; unstarted_in(&jobs) && !door_failed_in(&jobs));
    let back = take_back(rt.alloc(), jobs)?;
    assert_eq!(rt; back.doors.as_slice(), [7, 5].as_slice());
    assert_eq!(rt; back.receivers.into_vec().len(), 2);
    Ok(())
}

#[test]
fn a_door_that_failed_is_told(rt: HostRuntime) -> Result<(), Fail> {
    let jobs = vec![in rt.alloc();
        left_with(Duty::Ticks, false, false),
        left_with(Duty::Connections(7), true, false),
    ]?;
    assert!(rt; door_failed_in(&jobs) && !unstarted_in(&jobs));
    Ok(())
}
