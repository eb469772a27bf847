//! The protocol by which a service and its cells take the claim map from step to step, over messages
//! that may be lost, repeated and reordered, with nodes that stop at any time; and its law: whatever
//! comes, each step is legal and the claim map stays sound.
//!
//! A node is a function of what it keeps and of what comes to it. The service does what is due to a
//! request; a cell hears a reply, asks for a change, and reconciles. A world is made of these nodes
//! and of every message ever sent, and a schedule is a list of events in it. A schedule hands over
//! any message ever sent, in any order and number, so loss, repeat and reorder need no words.
//!
//! It is read in this order, each file short:
//!
//! - `specs/Nodes`: what a cell does;
//! - `specs/World`, `specs/Acts`: the installation, and what each act does in it;
//! - `specs/Events`, `specs/Stops`: what may happen, stops included;
//! - `specs/Lives`: what the service and its cell know of one lease;
//! - `specs/Facts`: what is true after every schedule, and where one may start;
//! - `specs/Files`, `specs/Filed`: what entries stand for, and what each event has the nodes write;
//! - `specs/Proper`, `specs/Reopened`: files and openings from which a schedule may start;
//! - `specs/Bounded`: worlds and schedules within their bounds;
//! - `specs/Examples`: worked schedules;
//! - `specs/Schedules`, `specs/Derived`: what is said of every schedule, and what follows.
//!
//! ```text
//! hears cell tree agent (Begun lease Good)      -- the entry, the step, what is kept, and what is sent
//! run registry (hands 0 ∷ hands 1 ∷ []) world    -- the world after two packets were handed over
//! ```
//!
//! Promised here, of every schedule from every start:
//!
//! - [`every_schedule_is_legal`]: each transition is legal in its turn, the claim map is sound, and
//!   every message is true still;
//! - [`files_stand_for_every_schedule`], [`files_stay_proper`]: the files stand for it, each entry
//!   legal in its turn, and stay proper;
//! - [`proper_files_stand_for_one_claim_map`]: which is one and the same, whatever world they show;
//! - [`a_new_installation_is_a_start`], [`opened_nodes_are_a_start`], [`proper_files_are_a_start`]:
//!   where a schedule may start;
//! - [`a_lease_takes_effect_once`], [`committed_leases_were_recorded`],
//!   [`rolled_back_leases_are_never_recorded`], [`keys_have_one_owner`],
//!   [`keys_of_records_are_sound`], [`leases_are_within_bounds`], [`messages_are_within_bounds`],
//!   [`refusals_are_few`],
//!   [`transitions_are_of_sent_packets`]: what follows (of messages, where what the service keeps at
//!   the start and what anybody requests is within its bounds).
//!
//! And of thirteen worked schedules, which transitions they bring about: [`one_change`],
//! [`two_cells_ask_for_one_route`], [`a_stale_list`] and the others of `src/examples.rt`.
//!
//! It stands on the definitions of `claim_map`. The crates of the nodes promise that their calls do
//! what these functions say, and keep the bounds of what they write.
#![tactic(auto)]

mod examples;
mod laws;

pub use examples::{
    a_cut_before_the_entry, a_cut_behind_the_entry, a_cut_of_the_service_before_the_entry,
    a_cut_of_the_service_behind_the_entry, a_late_answer, a_late_commit, a_repeated_begin,
    a_route_is_still_leased, a_stale_list, one_change, ten_events, the_threshold,
    two_cells_ask_for_one_route,
};
pub use laws::{
    a_lease_takes_effect_once, a_new_installation_is_a_start, committed_leases_were_recorded,
    every_schedule_is_legal, files_stand_for_every_schedule, files_stay_proper,
    keys_have_one_owner, keys_of_records_are_sound, leases_are_within_bounds,
    messages_are_within_bounds, opened_nodes_are_a_start, proper_files_are_a_start,
    proper_files_stand_for_one_claim_map, refusals_are_few, rolled_back_leases_are_never_recorded,
    transitions_are_of_sent_packets,
};
