// The texts of events and of calls. No write takes memory.
#![tactic(auto)]

pub mod call_text;
pub mod event_text;

pub use call_text::{rule_name, write_broken_rule, write_call};
pub use event_text::{write_end, write_event};
