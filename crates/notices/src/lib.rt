//! Event notices: the list of the events to come of a simulation block (SIMULA Standard, SIMULATION), and what activations are.
#![tactic(auto)]

mod activation;
mod laws;
mod next;
mod notice;
mod notice_set;
mod notice_vec;

pub use activation::{Activation, Placement, ProcessRef};
pub use laws::{
    direct_is_prior_at_the_present_time, list_stays_a_schedule, others_keep_their_order,
    plain_stands_after_equal_times, prior_stands_before_equal_times, worked_schedules,
};
pub use next::Next;
pub use notice::{Notice, ProcessNo};
pub use notice_set::NoticeSet;
pub use notice_vec::NoticeVec;
