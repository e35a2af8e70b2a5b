// Trials of open racks and piles of layers: strings of calls with every refusal, limits, and lists of outcomes.
#![tactic(auto)]

#[cfg(test)]
mod contradiction;
#[cfg(test)]
mod helping;
#[cfg(test)]
mod limits;
#[cfg(test)]
mod refusals;
