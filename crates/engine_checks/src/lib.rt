// Questions about worked boards, each with its verdict.
#![tactic(auto)]

#[cfg(test)]
mod boards;
#[cfg(test)]
mod tests;
