//! Tests of the crates that hold the rules of proof, judging, what explains a refusal, the machine and what is made at the start: a file for each.
#![tactic(auto)]

#[cfg(test)]
mod base;
#[cfg(test)]
mod equal;
#[cfg(test)]
mod explain;
#[cfg(test)]
mod induct;
#[cfg(test)]
mod machine;
#[cfg(test)]
mod marked;
#[cfg(test)]
mod preamble;
#[cfg(test)]
mod proof;
#[cfg(test)]
mod prop;
