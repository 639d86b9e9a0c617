//! What the tests share: terms that share their parts, and the arities of some functions.
ghost use Rattle.std.specs.Prelude.{◌≡◌, ◌<◌, true};
ghost use Rattle.mw_model.specs.Terms.Object.{is_name};

use mw_heap::Memory;
use mw_term::Arity;
use std::alloc::{AllocError, Global};

// A text that stands for a tree with one part many times.
pub(crate) struct Nest {
    pub(crate) innermost: &'static str,
    pub(crate) before: &'static str,
    pub(crate) between: &'static str,
    pub(crate) after: &'static str,
}

// A call whose actuals are both the call before it.
pub(crate) const CALLS: Nest = Nest {
    innermost: "(f x x)",
    before: "(f ",
    between: " ",
    after: ")",
};

// A term that holds another one twice, the second time by the label k, and has the label after it.
fn doubled(alloc: Global, nest: &Nest, term: &str, k: u64) -> Result<String, AllocError>
    requires { k < 100 }
{
    let next = k + 1;
    format!(in alloc;
        "#{next}={}{term}{}#{k}#{}",
        nest.before, nest.between, nest.after
    )
}

// Such terms, sixty deep: as a tree the text has 2^60 innermost terms.
pub(crate) fn nested(alloc: Global, nest: &Nest) -> Result<String, AllocError> {
    let mut term = format!(in alloc; "#1={}", nest.innermost)?;
    for k in 1..60 {
        term = doubled(alloc, nest, term.as_str(), k)?;
    }
    Ok(term)
}

pub(crate) fn add(arity: &mut Arity, name: &[u8], count: u64) -> Result<(), Memory>
    requires { is_name name.now ≡ true }
{
    match arity.lookup(name) {
        Some(_) => Ok(()),
        None => arity.add(name, count),
    }
}

fn add_all(arity: &mut Arity) -> Result<(), Memory> {
    add(arity, b"IF", 3)?;
    add(arity, b"CONS", 2)?;
    add(arity, b"CAR", 1)?;
    add(arity, b"CDR", 1)?;
    add(arity, b"F", 2)
}

// The arities of IF, CONS, CAR and CDR, and of F, which takes two.
pub(crate) fn arities(alloc: Global) -> Result<Box<Arity>, Memory> {
    let mut arity = Box::new(alloc, Arity::new(alloc))?;
    add_all(&mut arity)?;
    Ok(arity)
}
