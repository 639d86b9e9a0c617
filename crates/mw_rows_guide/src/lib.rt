//! Worked books with the expected reports, as tests of the whole program: the first book, the books of the guide, the axioms,
//! switches; and that a wrong row is told.
#![tactic(auto)]

#[cfg(test)]
mod axioms;
#[cfg(test)]
mod books;
#[cfg(test)]
mod first;
#[cfg(test)]
mod switches;
#[cfg(test)]
mod told;
