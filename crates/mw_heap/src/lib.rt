//! Objects in memory: naturals, symbols and pairs, each kept once and named by its index. And what the layers above share: out of memory,
//! the words of the logic, the primitives, the profiles and the reasons of refusal.
#![tactic(auto)]

mod budget;
mod shapes;
mod store;
mod vocabulary;

pub use budget::looks::{looks_for, take_look};
pub use budget::memory::Memory;
pub use shapes::bare::is_bare_name;
pub use shapes::list::{form_of, list_of};
pub use store::heap::Heap;
pub use store::mark::Mark;
pub use store::notes::Notes;
pub use store::reference::Ref;
pub use store::view::View;
pub use vocabulary::primitive::Primitive;
pub use vocabulary::profile::Profile;
pub use vocabulary::refusal::Refusal;
pub use vocabulary::word::Word;
