//! Formulas under tests.
ghost use Rattle.std.specs.Prelude.{◌≡◌, IfOk, OnOk};
ghost use Rattle.mw_model.specs.Terms.Object.{Pair};
ghost use Rattle.mw_heap.specs.Objects.{object_at, IsIn, Grows};
ghost use Rattle.mw_term.specs.Parts.{names_at};
ghost use Rattle.mw_define.specs.Collecting.{AreTests};
ghost use Rattle.mw_define.specs.Knowing.{known_of, AreKnown, AreDenials};
ghost use Rattle.mw_define.specs.Testing.{IsUnderTests, test_object};

use crate::axioms::equal_nil;
use crate::known::Known;
use crate::mention::mentions_some;
use crate::piece::Piece;
use mw_heap::{Heap, Memory, Ref, View, Word};
use mw_translate::{call_of_one, call_of_two};

// What is left to show where a test of this kind fails.
fn failing(heap: &mut Heap, kind: Ref, term: Ref) -> Result<Ref, Memory>
    requires kind_in { IsIn heap.old.objects kind }
    requires term_in { IsIn heap.old.objects term }
    ensures grows { Grows heap.old.objects heap.new.objects }
    ensures made { IfOk result (λ r. IsIn heap.new.objects r × (object_at heap.new.objects r ≡ test_object (object_at heap.old.objects kind) (object_at heap.old.objects term))) }
{
    let is_nil = heap.is_nil(Some(kind));
    let equation = equal_nil(heap, term)?;
    if is_nil {
        return call_of_one(heap, Word::Pnot, equation);
    }
    Ok(equation)
}

// The same, which is made once for each test in all of a block.
fn denial(
    heap: &mut Heap,
    test: Ref,
    kind: Ref,
    term: Ref,
    known: &mut Known,
) -> Result<Ref, Memory>
    requires test_in { IsIn heap.old.objects test }
    requires kind_in { IsIn heap.old.objects kind }
    requires term_in { IsIn heap.old.objects term }
    requires whole { object_at heap.old.objects test ≡ Pair (object_at heap.old.objects kind) (object_at heap.old.objects term) }
    requires denials { AreDenials heap.old.objects known.old }
    ensures grows { Grows heap.old.objects heap.new.objects }
    ensures pieces { OnOk result ((q : Piece) → known_of known.new q ≡ known_of known.old q) }
    ensures names { known.new.names ≡ known.old.names }
    ensures denials { OnOk result (AreDenials heap.new.objects known.new) }
    ensures made { IfOk result (λ r. IsIn heap.new.objects r × (object_at heap.new.objects r ≡ test_object (object_at heap.old.objects kind) (object_at heap.old.objects term))) }
{
    if let Some(made) = known.find_denial(test) {
        return Ok(made);
    }
    let fails = failing(heap, kind, term)?;
    known.note_denial(test, fails)?;
    Ok(fails)
}

// The formula under those tests of a list, the innermost first, that mention no function of the block. Each test takes a look, and so
// does each of its pieces that was not looked at before.
pub(crate) fn under_each(
    heap: &mut Heap,
    tests: Ref,
    formula: Ref,
    known: &mut Known,
    looks_left: &mut u64,
) -> Result<Ref, Memory>
    requires tests_in { IsIn heap.old.objects tests }
    requires read { AreTests (object_at heap.old.objects tests) }
    requires formula_in { IsIn heap.old.objects formula }
    requires known { AreKnown heap.old.objects known.old.names.keys known.old }
    ensures grows { Grows heap.old.objects heap.new.objects }
    ensures known { OnOk result (AreKnown heap.new.objects known.old.names.keys known.new) }
    ensures made { IfOk result (IsUnderTests (names_at heap.old.objects known.old.names.keys) heap.old.objects heap.new.objects tests formula) }
{
    let mut rest = tests;
    let mut made = formula;
    while let View::Pair(test, more) = heap.view(rest) {
        rest = more;
        let View::Pair(kind, term) = heap.view(test) else {
            unreachable!()
        };
        if mentions_some(heap, Piece::Term(term), known, looks_left)? {
            continue;
        }
        let fails = denial(heap, test, kind, term, known)?;
        made = call_of_two(heap, Word::Por, fails, made)?;
    }
    Ok(made)
}
