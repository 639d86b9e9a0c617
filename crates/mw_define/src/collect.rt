//! The calls of a block of functions in a term.
ghost use Rattle.std.specs.Prelude.{◌≡◌, List, [], Some, IfOk, OnOk};
ghost use Rattle.mw_model.specs.Terms.Term.{Term};
ghost use Rattle.mw_model.specs.Terms.Reading.{term_of};
ghost use Rattle.mw_model.specs.Values.Definition.{Function};
ghost use Rattle.mw_model.specs.Events.Obligation.{collect};
ghost use Rattle.mw_heap.specs.Objects.{object_at, IsIn, Grows};
ghost use Rattle.mw_term.specs.Parts.{names_at};
ghost use Rattle.mw_define.specs.Collecting.{Opens, Advances, IsPartOf, AreFoundCalls, HasNames, found_calls, HasTests};
ghost use Rattle.mw_define.specs.Mentioning.{piece_part};
ghost use Rattle.mw_define.specs.Knowing.{AreKnown};

use crate::item::{FoundCall, Item, Part};
use crate::known::Known;
use crate::mention::mentions_some;
use crate::opening::open;
use crate::piece::Piece;
use mw_code::check_size;
use mw_heap::{Heap, Memory, Ref};
use mw_term::take_searches_since;

// The most parts of a body that are looked at for calls: calls that stand in calls of lambdas may be met many times, each with its own
// actuals. A body that needs more is answered as out of memory. Each part takes four looks of the event as
// well: this is the number of parts at which 2^26 looks are used up.
const MOST_LOOKS: u32 = 1 << 24;

// Has the parts of an item wait, where it mentions the block: else it has no calls. The piece is its part.
fn open_piece(
    heap: &mut Heap,
    item: &Item,
    piece: Piece,
    known: &mut Known,
    waiting: &mut Vec<Item>,
) -> Result<(), Memory>
    requires piece { item.now.part ≡ piece_part piece }
    requires part { IsPartOf heap.old.objects (names_at heap.old.objects known.old.names.keys) item.now.part }
    requires tests_in { HasTests heap.old.objects item.now.tests }
    requires known { AreKnown heap.old.objects known.old.names.keys known.old }
    ensures grows { Grows heap.old.objects heap.new.objects }
    ensures known { OnOk result (AreKnown heap.new.objects known.old.names.keys known.new) }
    ensures opens { OnOk result (Opens (names_at heap.old.objects known.old.names.keys) heap.old.objects heap.new.objects item.now.part item.now.tests waiting.old.items waiting.new.items) }
{
    // unbounded: what is found of a piece stays known, and the items are counted
    let mut looks_left = u64::MAX;
    if mentions_some(heap, piece, known, &mut looks_left)? {
        return open(heap, &known.names, item, waiting);
    }
    Ok(())
}

// Finds the call that an item is, or has its parts wait.
fn advance(
    heap: &mut Heap,
    item: &Item,
    known: &mut Known,
    found: &mut Vec<FoundCall>,
    waiting: &mut Vec<Item>,
) -> Result<(), Memory>
    requires part { IsPartOf heap.old.objects (names_at heap.old.objects known.old.names.keys) item.now.part }
    requires tests_in { HasTests heap.old.objects item.now.tests }
    requires known { AreKnown heap.old.objects known.old.names.keys known.old }
    ensures grows { Grows heap.old.objects heap.new.objects }
    ensures known { OnOk result (AreKnown heap.new.objects known.old.names.keys known.new) }
    ensures advances { OnOk result (Advances (names_at heap.old.objects known.old.names.keys) heap.old.objects heap.new.objects item.now found.old.items found.new.items waiting.old.items waiting.new.items) }
{
    match item.part {
        Part::Call(name, actuals) => {
            found.push(FoundCall {
                name,
                actuals,
                tests: item.tests,
            })?;
            Ok(())
        }
        Part::Term(x) => open_piece(heap, item, Piece::Term(x), known, waiting),
        Part::Terms(x) => open_piece(heap, item, Piece::Terms(x), known, waiting),
    }
}

// The calls of functions of the block in a term, with the tests that they stand under, in order. Of a lambda call they are those of
// its actuals and those of its body with the actuals for the formals. Actuals of a call that was found are not looked at, and parts that
// mention none of the functions are not opened. A term whose code is too large to be laid out is not looked at as a tree at all.
pub(crate) fn find_calls(
    heap: &mut Heap,
    term: Ref,
    known: &mut Known,
) -> Result<Vec<FoundCall>, Memory>
    requires within { IsIn heap.old.objects term }
    requires read { (t : Term) × (term_of (object_at heap.old.objects term) ≡ Some t) }
    requires known { AreKnown heap.old.objects known.old.names.keys known.old }
    ensures grows { Grows heap.old.objects heap.new.objects }
    ensures known { OnOk result (AreKnown heap.new.objects known.old.names.keys known.new) }
    ensures found { IfOk result (λ fs. AreFoundCalls heap.new.objects (names_at heap.old.objects known.old.names.keys) fs.items) }
    ensures calls { IfOk result (λ fs. (B : List Function) (t : Term) → HasNames B (names_at heap.old.objects known.old.names.keys) → term_of (object_at heap.old.objects term) ≡ Some t → found_calls B heap.new.objects fs.items ≡ collect B [] t) }
{
    let mut found = Vec::new(heap.alloc());
    // What is found of a piece stays known, so that this needs no bound.
    let mut unbounded = u64::MAX;
    if !mentions_some(heap, Piece::Term(term), known, &mut unbounded)? {
        return Ok(found);
    }
    check_size(heap, term)?;
    let tests = heap.nil()?;
    let mut waiting = Vec::new(heap.alloc());
    waiting.push(Item {
        part: Part::Term(term),
        tests,
    })?;
    let mut looks_left = MOST_LOOKS;
    while let Some(item) = waiting.pop() {
        if looks_left == 0 {
            return Err(Memory);
        }
        looks_left -= 1;
        let had = heap.mark();
        advance(heap, &item, known, &mut found, &mut waiting)?;
        take_searches_since(heap, had, 1)?;
    }
    Ok(found)
}
