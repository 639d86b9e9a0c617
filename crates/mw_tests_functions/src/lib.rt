//! Tests of what makes functions and runs them: the expansion of raw terms, the tests and the obligations of definitions, compiled terms
//! and the machine that runs them.
#![tactic(auto)]

#[cfg(test)]
mod bench;
#[cfg(test)]
mod define;
#[cfg(test)]
mod shared;
#[cfg(test)]
mod terms;
#[cfg(test)]
mod translate;
#[cfg(test)]
mod turns;
#[cfg(test)]
mod values;
#[cfg(test)]
mod widths;
