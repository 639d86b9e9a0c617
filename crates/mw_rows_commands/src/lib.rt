//! Worked books for the further commands with the expected answers, and the words of the command line, as tests of the whole program.
#![tactic(auto)]

#[cfg(test)]
mod commands;
#[cfg(test)]
mod explain;
#[cfg(test)]
mod faults;
#[cfg(test)]
mod flat;
#[cfg(test)]
mod large;
#[cfg(test)]
mod logs;
#[cfg(test)]
mod long_logs;
#[cfg(test)]
mod lower;
#[cfg(test)]
mod recheck;
#[cfg(test)]
mod slice;
#[cfg(test)]
mod taut;
