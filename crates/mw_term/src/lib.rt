//! Which objects are terms and formulas under an arity table, and the variables of a term.
#![tactic(auto)]

mod arity;
mod bodies;
mod cell_mark;
mod formal_names;
mod formals;
mod free;
mod gather;
mod head;
mod list;
mod looks;
mod marks;
mod names;
mod notes;
mod noting;
mod part;
mod substitutions;
mod variables;
mod watch;
mod work;

pub use arity::Arity;
pub use formal_names::Formals;
pub use formals::is_among_symbols;
pub use gather::{vars, vars_counted};
pub use looks::{take_searches, take_searches_of_members, take_searches_since};
pub use marks::{Marks, is_formula, is_term, mark_terms};
pub use names::is_function_symbol;
pub use substitutions::is_substitution;
pub use variables::Vars;
pub use watch::{Watch, give_up};
