//! The table of a formula, from the heap.
ghost use Rattle.std.specs.Prelude.{◌≡◌, ℕ, ◌<◌, ◌++◌, ◌∷◌, [], true, MatchOption, IfOk, OnOk};
ghost use Rattle.mw_model.specs.Terms.Term.{Formula, formula_object, ArityTable, is_formula};
ghost use Rattle.mw_heap.specs.Objects.{object_at, IsIn};
ghost use Rattle.mw_taut.specs.Building.{IsAt, IsNew, IsProgress, IsBuilt, equations_with, left_over};
ghost use Rattle.mw_taut.specs.Decided.{IsTableOf};

use crate::table::{Node, Progress, Table};
use indexmap::IndexSet;
use mw_heap::{Heap, Memory, Ref, Word};

// The place of a part, where it stands in the table.
fn place_of(parts: &IndexSet<Ref>, x: Ref) -> Option<usize>
    ensures { MatchOption result (IsNew parts.now.keys x) (λ i. IsAt parts.now.keys i x) }
{
    parts.get_index_of(&x)
}

// Looks at a formula. An equation is the next one.
fn look(heap: &Heap, parts: &IndexSet<Ref>, equations: usize, x: Ref) -> Progress
    requires { IsIn heap.now.objects x }
    ensures { IsProgress heap.now.objects parts.now.keys equations x result }
{
    if let Some(a) = heap.member_after(x, Word::Pnot) {
        return match place_of(parts, a) {
            Some(i) => Progress::Made(Node::Not(i)),
            None => Progress::Wants(a),
        };
    }
    let Some((a, b)) = heap.members_after(x, Word::Por) else {
        return Progress::Made(Node::Equation(equations));
    };
    let Some(i) = place_of(parts, a) else {
        return Progress::Wants(a);
    };
    match place_of(parts, b) {
        Some(j) => Progress::Made(Node::Or(i, j)),
        None => Progress::Wants(b),
    }
}

// Adds the part to the equations, if it is one.
fn put_equation(equations: &mut Vec<Ref>, x: Ref, node: Node) -> Result<(), Memory>
    ensures { OnOk result (equations.new.items ≡ equations_with node equations.old.items x) }
{
    match node {
        Node::Equation(_) => equations.push(x)?,
        _ => {}
    }
    Ok(())
}

// Looks at a part that waits: it goes into the table, or back on the path with the first part that it needs on top of it.
fn advance(
    heap: &Heap,
    parts: &mut IndexSet<Ref>,
    nodes: &mut Vec<Node>,
    equations: &mut Vec<Ref>,
    path: &mut Vec<Ref>,
    x: Ref,
) -> Result<(), Memory>
    requires within { IsIn heap.now.objects x }
    requires new { IsNew parts.old.keys x }
    requires built { (A : ArityTable) × (F : Formula) × IsBuilt A heap.now.objects F parts.old.keys nodes.old.items equations.old.items (path.old.items ++ x ∷ []) }
    ensures built { OnOk result ((A : ArityTable) → (F : Formula) → IsBuilt A heap.now.objects F parts.old.keys nodes.old.items equations.old.items (path.old.items ++ x ∷ []) → IsBuilt A heap.now.objects F parts.new.keys nodes.new.items equations.new.items path.new.items) }
    ensures falls { OnOk result ((f : ℕ) → (A : ArityTable) → (F : Formula) → object_at heap.now.objects f ≡ formula_object F → IsBuilt A heap.now.objects F parts.old.keys nodes.old.items equations.old.items (path.old.items ++ x ∷ []) → left_over heap.now.objects f parts.new.keys path.new.items < left_over heap.now.objects f parts.old.keys (path.old.items ++ x ∷ [])) }
{
    heap.order();
    match look(heap, parts, equations.len(), x) {
        Progress::Wants(part) => {
            path.push(x)?;
            path.push(part)?;
        }
        Progress::Made(node) => {
            put_equation(equations, x, node)?;
            nodes.push(node)?;
            parts.insert(x)?;
        }
    }
    Ok(())
}

/// The table of the formula. Each part is looked at three times at most: a part that waits for another stays below it on the path.
pub(crate) fn table_of(heap: &Heap, f: Ref) -> Result<Table, Memory>
    requires within { IsIn heap.now.objects f }
    requires formula { (A : ArityTable) × (F : Formula) × (object_at heap.now.objects f ≡ formula_object F) × (is_formula A F ≡ true) }
    ensures { IfOk result (λ t. (A : ArityTable) → (F : Formula) → object_at heap.now.objects f ≡ formula_object F → is_formula A F ≡ true → IsTableOf heap.now.objects F t) }
{
    let mut parts = IndexSet::new(heap.alloc());
    let mut nodes = Vec::new(heap.alloc());
    let mut equations = Vec::new(heap.alloc());
    let mut path = Vec::new(heap.alloc());
    path.push(f)?;
    while let Some(x) = path.pop() {
        advance(heap, &mut parts, &mut nodes, &mut equations, &mut path, x)?;
    }
    let root = nodes.len() - 1;
    let formulas = Vec::from_slice(heap.alloc(), parts.as_slice())?;
    Ok(Table {
        nodes,
        formulas,
        equations,
        root,
    })
}
