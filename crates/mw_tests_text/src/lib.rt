//! Tests of the crates below the rules of proof: objects, their texts, terms, substitutions, ordinals and axioms, and the outside. A file
//! for each.
#![tactic(auto)]

#[cfg(test)]
mod axioms;
#[cfg(test)]
mod data;
#[cfg(test)]
mod heap;
#[cfg(test)]
mod ordinal;
#[cfg(test)]
mod port;
#[cfg(test)]
mod print;
#[cfg(test)]
mod read;
#[cfg(test)]
mod shared;
#[cfg(test)]
mod subst;
#[cfg(test)]
mod term;
