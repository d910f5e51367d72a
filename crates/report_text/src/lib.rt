// The texts of what schedules show, and of reports, as they are printed. No write takes memory.
#![tactic(auto)]

pub mod explained_lines;
pub mod identity_text;
pub mod laws;
pub mod report;
pub mod sample_lines;
pub mod standing;
pub mod visited;

pub use explained_lines::{write_explained_first_line, write_explained_last_line};
pub use identity_text::write_identity;
pub use report::{findings_in, write_complete_result, write_counts, write_finding, write_report};
pub use sample_lines::{Sampled, write_sample, write_sample_first_line, write_sample_last_line};
pub use standing::word_of;
pub use visited::Visited;
