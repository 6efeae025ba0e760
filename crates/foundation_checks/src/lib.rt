// Examples and edges of the foundation: numbers, role sets, step systems, hierarchies.
#![tactic(auto)]

mod pipeline;

pub use pipeline::Pipeline;

#[cfg(test)]
mod tests;
