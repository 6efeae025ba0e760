// Texts of one line, read into what a board can be asked.
#![tactic(auto)]

mod inquiries;

pub use inquiries::read_inquiry;
