// Every refusal of a board's calls, how refusals rank, and worked boards with their answers.
#![tactic(auto)]

#[cfg(test)]
mod asking;
#[cfg(test)]
mod boards;
#[cfg(test)]
mod calls;
#[cfg(test)]
mod changes;
#[cfg(test)]
mod delegates;
#[cfg(test)]
mod failing;
#[cfg(test)]
mod openings;
#[cfg(test)]
mod present;
#[cfg(test)]
mod ranks;
#[cfg(test)]
mod worked;
