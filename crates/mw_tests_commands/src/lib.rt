//! Tests of the crates of the further commands: proofs as steps, derivations, slices and tautologies. A file for each.
#![tactic(auto)]

#[cfg(test)]
mod flat;
#[cfg(test)]
mod lower;
#[cfg(test)]
mod slice;
#[cfg(test)]
mod taut;
