//! Candidate pairs: the connectivity checks of one path, from when it is due until it fails (RFC 8445).
#![tactic(auto)]

pub mod checklist;
pub mod pair;
pub mod theorems;

pub use pair::due::{
    due_time_of, is_scheduled, is_urgent, move_next, reset_next_binding_attempt, schedule_triggered,
};
pub use pair::replacing::take_over;
pub use pair::silence::{
    is_long_silent, is_wholly_silent, last_sent, lost_checks, outlives, silence_of, silence_until,
};
pub use pair::{keep_number, renominate};
