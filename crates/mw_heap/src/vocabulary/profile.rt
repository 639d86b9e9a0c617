//! The profiles of the language.

/// Which primitive functions there are: profile Two has a product, and One has none.
#[derive(Clone, Copy)]
pub enum Profile {
    One,
    Two,
}
