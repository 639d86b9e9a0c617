//! Worked books at the edges, as tests of the whole program: books in pieces, cut short, with faults of their text, nested deep, shared
//! by labels, hostile, at bounds.
#![tactic(auto)]

#[cfg(test)]
mod bounds;
#[cfg(test)]
mod depth;
#[cfg(test)]
mod ends;
#[cfg(test)]
mod expected;
#[cfg(test)]
mod faults;
#[cfg(test)]
mod hostile;
#[cfg(test)]
mod nested;
#[cfg(test)]
mod pieces;
#[cfg(test)]
mod shared;
#[cfg(test)]
mod trial;
