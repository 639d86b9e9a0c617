//! The table of a formula.
use mw_heap::Ref;

/// How a part is made of earlier ones, by their places. An equation has its place among the equations.
#[derive(Clone, Copy)]
pub(crate) enum Node {
    Equation(usize),
    Not(usize),
    Or(usize, usize),
}

/// How a formula is made of parts that stand in the table, or a part that does not stand there yet.
#[derive(Clone, Copy)]
pub(crate) enum Progress {
    Made(Node),
    Wants(Ref),
}

/// The parts of a formula, each once and after its own parts, the place of the whole among them, and the equations in order of first
/// occurrence.
#[derive(Drop)]
pub(crate) struct Table {
    pub nodes: Vec<Node>,
    pub formulas: Vec<Ref>,
    pub equations: Vec<Ref>,
    pub root: usize,
}
