//! Worked books for events of each kind, as tests of the whole program: definitions, runs, inductions, profiles, and data that are not events.
#![tactic(auto)]

#[cfg(test)]
mod definitions;
#[cfg(test)]
mod evals;
#[cfg(test)]
mod events;
#[cfg(test)]
mod induction;
#[cfg(test)]
mod profiles;
