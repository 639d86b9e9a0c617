//! The parts that are shown of an event, by its word.
use crate::definitions::definitions_shown;
use crate::event_parts::{members_shown, switch_shown, term_shown, verify_shown, witness_shown};
use mw_define::Draft;
use mw_heap::{Heap, Memory, Ref, Refusal};
use mw_kernel::{Checker, Explainer};
use mw_term::Marks;
use mw_theory::{Drafts, Event, Theory, event_of};

/// Shows what is wrong with the parts of an event. A proof that was refused is judged once more for that, and so are those before it.
#[derive(Clone, Copy, Debug)]
pub struct EventParts;

impl Explainer for EventParts {
    fn parts_shown(
        &self,
        heap: &mut Heap,
        theory: &Theory,
        marks: &mut Marks,
        checker: &mut Checker,
        reason: Refusal,
        event: Ref,
    ) -> Result<Vec<Ref>, Memory> {
        let Some(members) = event_of(heap, event) else {
            return members_shown(heap, event);
        };
        match members {
            Event::Verify {
                name,
                formula,
                proof,
            } => verify_shown(heap, theory, marks, reason, name, formula, proof),
            Event::Define {
                name,
                formals,
                body,
                measure,
                proofs,
            } => {
                let draft = Draft {
                    name,
                    formals,
                    body,
                    measure,
                };
                definitions_shown(
                    heap,
                    theory,
                    marks,
                    checker,
                    reason,
                    Drafts::One(draft),
                    proofs,
                )
            }
            Event::DefineAll {
                definitions,
                proofs,
            } => definitions_shown(
                heap,
                theory,
                marks,
                checker,
                reason,
                Drafts::All(definitions),
                proofs,
            ),
            Event::Skolem {
                name,
                bound,
                free,
                body,
            } => witness_shown(heap, &theory.arity, reason, name, bound, free, body),
            Event::Switch(name) => switch_shown(heap, &theory.arity, reason, name),
            Event::Eval(term) => term_shown(heap, &theory.arity, reason, term),
            Event::Print(_) => Ok(Vec::new(heap.alloc())),
            Event::Profile(_) => Ok(Vec::new(heap.alloc())),
        }
    }
}
