//! Three rules, as tests on conclusions and premises: functional equality, beta reduction and instantiation.
#![tactic(auto)]

mod equal_calls;
mod instance;
mod reduction;
mod shapes;

pub use equal_calls::functional_equality;
pub use instance::instantiation;
pub use reduction::{beta, reduced};
