//! An installation: the service and the cells of a configuration over one disk, with a wire between them.
//!
//! ```text
//! let mut cluster = Cluster::open(alloc, &mut disk, registry)?;
//! let answer = cluster.line(alloc, &mut disk, &mut wire, clock.now(), &line)?;   // `create 1 organization acme`
//! assert!(cluster.trace().len() == 3);                                           // leased, recorded, committed
//! ```
//!
//! [`Cluster::open`] opens each node's file: the cluster is in the world that the files stood for, with every node opened again
//! (`opens`), and whatever it answers, each file stands for what it stood for, but for a cell's epoch (`keeps`).
//! [`Cluster::line`] does a line of a script: its own event, and then one
//! hand-over for each packet that the wire gave, in order (`follows`); the files stood at each moment for a world that the
//! first of these events lead to. A world in order stays in order by the law of `claim_laws`, so the trace is a run of legal
//! steps. A packet that was not sent here, or whose leg or bytes are not those of its tag, is dropped. The line's answer is the
//! one that these events bring (`answer_of`), and what it put on the wire are the packets that it sent, but for those that were
//! armed to be lost (`puts`). It takes packets where its event put one, until none is on its way or as many as a line may take.
//!
//! A line that comes to an end by a fault or for want of memory told the steps of all of its events, or of all but the last, and
//! the files stand for the world behind these, or, only where the disk's count of faults rose, behind one more (`breaks`).
//!
//! Over a wire that tells, and whose count stood still, a line takes the packets on their way in order, and waits only where it
//! took as many as a line may take, where a put was lost, or where its own event came to that (`TakesOnWay`).
#![tactic(auto)]

mod answer;
mod cluster;
mod course;
mod examples;
mod fault;
mod hear;
mod limits;
mod message;
mod opening;
mod post;
mod serve;
mod wanted;

pub use cluster::Cluster;
pub use examples::{
    a_change_comes_to_its_end, a_recorded_change_is_accepted, another_lease_is_no_answer,
    at_0_nothing_is_lost, each_loss_counts_for_itself, pages_are_followed,
    ranges_and_reconciliations_come_to_their_replies, tags_count_from_1, the_first_reply_counts,
    the_second_put_is_lost, what_is_put_goes_behind,
};
pub use fault::{ClusterError, Damage};
pub use limits::{MOST_TAKES, ROUTER, TAKES_A_LINE};
