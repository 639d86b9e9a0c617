//! The first bad step of an object that is not a proof, the conclusion with which a step would follow, and the premises that an induction
//! asks for.
#![tactic(auto)]

mod bad_step;
mod candidate;
mod candidates;
mod cases;
mod computed;
mod conclusions;
mod disjunction;
mod equal_calls;
mod falls;
mod form;
mod formulas;
mod instance;
mod lists;
mod mending;
mod premises;

pub use bad_step::{BadStep, first_bad_step};
pub use conclusions::{first_and_rest, seconds_of};
pub use form::{Form, has_form};
pub use lists::{has_members, is_list};
pub use mending::mended;
pub use premises::premises_of_induction;
