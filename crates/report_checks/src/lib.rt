// What is told of worked boards, byte by byte.
#![tactic(auto)]

#[cfg(test)]
mod tests;
