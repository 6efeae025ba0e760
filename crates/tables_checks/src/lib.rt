// Examples and edges of a board's tables.
#![tactic(auto)]

#[cfg(test)]
mod tests;
