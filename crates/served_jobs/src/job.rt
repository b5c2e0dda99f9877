//! Jobs.

ghost use Rattle.node_lock.specs.Passes.{IsPassOf};

use crate::done::JobDone;
use crate::duty::Duty;
use crate::site::NodeSite;
use crate::working::work_at;
use cs_doors::Door;
use cs_io::Gate;
use cs_runtime::{Clock, Job};
use node_calls::{NodeCall, NodeReply};
use node_lock::{Pass, Stepper};
use node_workers::Ended;
use std::sync::Wait;

/// A job of a node: what it does, and the pass by which it steps the node.
#[derive(Drop)]
pub struct NodeJob<'a, W, N: Stepper<Event = NodeCall, Reply = NodeReply>, C, G, D> {
    pub site: &'a NodeSite<'a, W, N, C, G>,
    pub pass: Pass<N>,
    pub duty: Duty<D>,
    ghost of_lock: { IsPassOf site.now.lock.now pass },
}

impl<'a, W, N: Stepper<Event = NodeCall, Reply = NodeReply>, C, G, D> NodeJob<'a, W, N, C, G, D> {
    ghost use Rattle.std.specs.Prelude.{◌≡◌};

    /// A job at this site. The pass is one of the site's lock.
    pub fn new(
        site: &'a NodeSite<'a, W, N, C, G>,
        pass: Pass<N>,
        duty: Duty<D>,
    ) -> NodeJob<'a, W, N, C, G, D>
        requires { IsPassOf site.now.lock.now pass }
        ensures site { result.site ≡ site.entry }
        ensures pass { result.pass ≡ pass }
        ensures duty { result.duty ≡ duty }
    {
        NodeJob { site, pass, duty }
    }
}

impl<
    'a,
    W: Wait,
    N: Stepper<Event = NodeCall, Reply = NodeReply>,
    C: Clock,
    G: Gate,
    D: Door + Drop,
> Job for NodeJob<'a, W, N, C, G, D> {
    ghost use Rattle.served_jobs.specs.declared.done.JobDone.{JobDone};
    ghost use Rattle.served_jobs.specs.declared.job.NodeJob.{NodeJob};
    ghost use Rattle.served_jobs.specs.Endings.{GivesPass, IsWorked, IsUnstarted};

    type Done = JobDone<N, D>;

    ghost ends = { λ (job : NodeJob W N C G D N.Entry) (done : JobDone N D N.Entry). GivesPass job done };

    ghost works = { λ (job : NodeJob W N C G D N.Entry) (done : JobDone N D N.Entry). IsWorked N.steps N.event_of N.reply_of N.refuses C.gives D.Link.remaining D.Link.written D.Link.faults D.given D.returned D.faults job done };

    ghost unstarts = { λ (job : NodeJob W N C G D N.Entry) (done : JobDone N D N.Entry). IsUnstarted job done };

    fn work(self) -> JobDone<N, D> {
        let NodeJob { site, pass, duty } = self;
        work_at(site, pass, duty)
    }

    // The others cannot do without it.
    fn unstarted(self) -> JobDone<N, D> {
        let NodeJob { site, pass, duty } = self;
        site.raise_stop();
        JobDone {
            pass,
            duty,
            ended: Ended {
                failed: false,
                held: None,
            },
            door_failed: false,
            unstarted: true,
        }
    }
}
