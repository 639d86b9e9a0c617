//! What a kernel shows: a new one, one after an event that is refused, one after a theorem, and one after a switch; after which events it
//! says that they took long; what it takes for terms as names come; and what it says of events that are refused.
ghost use Rattle.std.specs.Prelude.{IfOk};
ghost use Rattle.mw_heap.specs.Objects.{IsIn};

use mw_explain_events::EventParts;
use mw_forms::is_in;
use mw_heap::{Heap, Memory, Ref, Refusal, View, Word};
use mw_kernel::{Fate, Kernel};
use mw_read::{Reader, Step};
use std::alloc::Global;

const CLAIM: &[u8] = b"(por* (pequal* (f x axioms thms atbl) 'nil) \
    (pnot* (pequal* (logic.provablep (logic.conclusion x) axioms thms atbl) 'nil)))";

// What a test answers on a new kernel with this step limit.
fn on_a_kernel<F: FnOnce(&mut Kernel) -> bool>(
    alloc: Global,
    steps: u64,
    test: F,
) -> Result<bool, Memory>
    requires { F.IsAlwaysCallable test }
{
    let kernel = Kernel::new(alloc, steps)?;
    let mut kernel = Box::new(alloc, kernel)?;
    Ok(test(&mut kernel))
}

// The first datum of a text.
fn read(kernel: &mut Kernel, text: &[u8]) -> Result<Ref, Memory>
    ensures { IfOk result (λ x. IsIn kernel.new.objects x) }
{
    let mut reader = Reader::new(kernel.heap().alloc());
    let (step, _) = kernel.step(&mut reader, text);
    match step {
        Step::Datum(datum) if is_in(kernel.heap(), datum) => Ok(datum),
        _ => Err(Memory),
    }
}

// The number of members of a list.
fn count_members(heap: &Heap, list: Ref) -> usize {
    let mut rest = list;
    let mut count = 0usize;
    for _ in 0..heap.mark().cells() {
        if !is_in(heap, rest) {
            break;
        }
        let View::Pair(_, more) = heap.view(rest) else {
            break;
        };
        rest = more;
        count = count.saturating_add(1);
    }
    count
}

// Whether the first member of a list is an equation.
fn first_equates(heap: &Heap, list: Ref) -> bool {
    if !is_in(heap, list) {
        return false;
    }
    match heap.car(list) {
        Some(first) => heap.is_headed(first, Word::Pequal),
        None => false,
    }
}

// The number in the first pair of a list of pairs, where the pair is that of LOGIC.PROVABLEP.
fn first_number(heap: &Heap, list: Ref) -> Option<u128> {
    if !is_in(heap, list) {
        return None;
    }
    let first = heap.car(list)?;
    if heap.is_named(heap.car(first), b"LOGIC.PROVABLEP") {
        Some(heap.number(heap.cdr(first)))
    } else {
        None
    }
}

// Whether a checker of the name F claims the expected formula.
fn claims(kernel: &mut Kernel) -> Result<bool, Memory> {
    let name = read(kernel, b"f ")?;
    if !matches!(kernel.heap().view(name), View::Symbol) {
        return Err(Memory);
    }
    let claim = kernel.claim(name)?;
    Ok(read(kernel, CLAIM) == Ok(claim))
}

// Whether a kernel shows the initial theory with the given number of theorems: its level, that it has no checker, how long its lists are, how their
// newest members begin, and that a checker claims the expected formula.
fn shows(kernel: &mut Kernel, theorems: usize) -> Result<bool, Memory> {
    let claims = claims(kernel)?;
    let heap = kernel.heap();
    Ok(
        [
            kernel.level() == 1,
            kernel.checker().is_none(),
            count_members(heap, kernel.axioms()) == 53 + 54,
            first_equates(heap, kernel.axioms()),
            count_members(heap, kernel.theorems()) == theorems,
            count_members(heap, kernel.arity()) == 12 + 54,
            first_number(heap, kernel.arity()) == Some(4),
            claims,
        ] == [true; 8],
    )
}

// The reason for which an event is refused; nothing of one that is accepted.
fn refusal(kernel: &mut Kernel, event: &[u8]) -> Result<Option<Refusal>, Memory> {
    let event = read(kernel, event)?;
    match kernel.event(event)? {
        Fate::Accepted(_) => Ok(None),
        Fate::Refused(refusal) => Ok(Some(refusal)),
    }
}

// Whether an event is refused for this reason, where a kernel shows the initial theory before it, and the given number of theorems with it after it.
fn shows_around(
    kernel: &mut Kernel,
    event: &[u8],
    expected: Option<Refusal>,
    theorems: usize,
) -> bool {
    [
        shows(kernel, 0) == Ok(true),
        refusal(kernel, event) == Ok(expected),
        shows(kernel, theorems) == Ok(true),
    ] == [true; 3]
}

fn shows_the_same(kernel: &mut Kernel) -> bool {
    shows_around(kernel, b"(print)", Some(Refusal::Event), 0)
}

#[test]
fn a_refused_event_changes_nothing_that_is_shown(rt: HostRuntime) {
    assert!(rt; on_a_kernel(rt.alloc(), 0, shows_the_same) == Ok(true));
}

const REFL: &[u8] = b"(verify refl (pequal* x x) (axiom (pequal* x x)))";

fn shows_a_theorem(kernel: &mut Kernel) -> bool {
    shows_around(kernel, REFL, None, 1)
}

#[test]
fn a_theorem_is_added_to_what_is_shown(rt: HostRuntime) {
    assert!(rt; on_a_kernel(rt.alloc(), 0, shows_a_theorem) == Ok(true));
}

// A function of four formals that always answers NIL, the proof that it may judge, and the switch to it.
const NEVER: &[u8] = b"(define never (x axioms thms atbl) nil nil ())";

const NEVER_CLAIMS: &[u8] = b"(verify claim \
    #1=(por* #2=(pequal* (never x axioms thms atbl) 'nil) \
    #3=(pnot* (pequal* (logic.provablep (logic.conclusion x) axioms thms atbl) 'nil))) \
    (cut #1# ((expansion (por* #3# #2#) ((axiom #2#))) \
    (propositional-schema (por* (pnot* #3#) #3#)))))";

const SWITCH: &[u8] = b"(switch never)";

// Whether the checker has the name NEVER.
fn is_never(kernel: &Kernel) -> bool {
    match kernel.checker() {
        Some(checker) if is_in(kernel.heap(), checker) => {
            kernel.heap().is_named(Some(checker), b"NEVER")
        }
        _ => false,
    }
}

// Whether the three events are accepted, and the kernel then shows its checker and level.
fn switches(kernel: &mut Kernel) -> bool {
    [
        refusal(kernel, NEVER) == Ok(None),
        refusal(kernel, NEVER_CLAIMS) == Ok(None),
        refusal(kernel, SWITCH) == Ok(None),
        kernel.level() == 2,
        is_never(kernel),
    ] == [true; 5]
}

#[test]
fn a_switch_shows_its_checker_and_its_level(rt: HostRuntime) {
    assert!(rt; on_a_kernel(rt.alloc(), 0, switches) == Ok(true));
}

// An EVAL of nineteen tests within one another by labels, each of which comes to the one before it once more, behind another test. It runs
// some three million instructions and takes no unit.
const TESTS: &[u8] =
    b"(eval #20=(if #19=(if #18=(if #17=(if #16=(if #15=(if #14=(if #13=(if #12=(if #11=(if \
    #10=(if #9=(if #8=(if #7=(if #6=(if #5=(if #4=(if #3=(if #2=(if #1=t (if t #1# nil) nil) (if \
    t #2# nil) nil) (if t #3# nil) nil) (if t #4# nil) nil) (if t #5# nil) nil) (if t #6# nil) \
    nil) (if t #7# nil) nil) (if t #8# nil) nil) (if t #9# nil) nil) (if t #10# nil) nil) (if t \
    #11# nil) nil) (if t #12# nil) nil) (if t #13# nil) nil) (if t #14# nil) nil) (if t #15# \
    nil) nil) (if t #16# nil) nil) (if t #17# nil) nil) (if t #18# nil) nil) (if t #19# nil) \
    nil))";

// Whether an event took long, where it is accepted.
fn took_long(kernel: &mut Kernel, event: &[u8]) -> Result<bool, Memory> {
    match refusal(kernel, event)? {
        None => Ok(kernel.took_long()),
        Some(_) => Err(Memory),
    }
}

// Whether just the event of many instructions is said to have taken long.
fn tells_what_took_long(kernel: &mut Kernel) -> bool {
    [
        took_long(kernel, REFL) == Ok(false),
        took_long(kernel, TESTS) == Ok(true),
        took_long(kernel, b"(print 1)") == Ok(false),
    ] == [true; 3]
}

// At a step limit of ten, room is made for the run, and its instructions have no bound.
#[test]
fn a_long_run_is_told(rt: HostRuntime) {
    assert!(rt; on_a_kernel(rt.alloc(), 10, tells_what_took_long) == Ok(true));
    assert!(rt; on_a_kernel(rt.alloc(), 20_000, tells_what_took_long) == Ok(true));
}

// Calls of two functions within one another, quoted before the functions are defined.
const QUOTED: &[u8] = b"(verify quoted \
    #1=(pequal* #2='((outer (inner x)) (inner (outer x)) (outer . x) ((lambda (x) (inner x)) y)) #2#) \
    (instantiation #1# ((axiom (pequal* x x))) ((x . #2#))))";

const OUTER: &[u8] = b"(define outer (x) x nil ())";

const INNER: &[u8] = b"(define inner (x) x nil ())";

// That a term equals itself, for four of the quoted ones.
const OF_OUTER: &[u8] = b"(verify of-outer #1=(pequal* #2=(outer x) #2#) \
    (instantiation #1# ((axiom (pequal* x x))) ((x . #2#))))";

const OF_INNER: &[u8] = b"(verify of-inner #1=(pequal* #2=((lambda (x) (inner x)) y) #2#) \
    (instantiation #1# ((axiom (pequal* x x))) ((x . #2#))))";

const OUTER_FIRST: &[u8] = b"(verify outer-first #1=(pequal* #2=(outer (inner x)) #2#) \
    (instantiation #1# ((axiom (pequal* x x))) ((x . #2#))))";

const INNER_FIRST: &[u8] = b"(verify inner-first #1=(pequal* #2=(inner (outer x)) #2#) \
    (instantiation #1# ((axiom (pequal* x x))) ((x . #2#))))";

const IMPROPER: &[u8] = b"(verify improper #1=(pequal* #2=(outer . x) #2#) \
    (instantiation #1# ((axiom (pequal* x x))) ((x . #2#))))";

// Which of these are refused since they are no formulas: of each function alone, of both, and of an object that is not a list.
fn refused(kernel: &mut Kernel) -> [Result<bool, Memory>; 5] {
    [
        is_no_formula(kernel, OF_OUTER),
        is_no_formula(kernel, OF_INNER),
        is_no_formula(kernel, OUTER_FIRST),
        is_no_formula(kernel, INNER_FIRST),
        is_no_formula(kernel, IMPROPER),
    ]
}

// Whether an event is refused since its claim is no formula. The error is out of memory, or another reason.
fn is_no_formula(kernel: &mut Kernel, event: &[u8]) -> Result<bool, Memory> {
    match refusal(kernel, event)? {
        None => Ok(false),
        Some(Refusal::Formula) => Ok(true),
        Some(_) => Err(Memory),
    }
}

// Whether just the claims about what is defined are formulas, where the two functions are quoted before and defined in this order; `after_first`
// are the claims that are none once the first is defined.
fn takes_as_defined(
    kernel: &mut Kernel,
    first: &[u8],
    second: &[u8],
    after_first: [Result<bool, Memory>; 5],
) -> bool {
    let quoted = refusal(kernel, QUOTED) == Ok(None);
    let before = refused(kernel) == [Ok(true); 5];
    let one = refusal(kernel, first) == Ok(None);
    let between = refused(kernel) == after_first;
    let other = refusal(kernel, second) == Ok(None);
    let after = refused(kernel) == [Ok(false), Ok(false), Ok(false), Ok(false), Ok(true)];
    [quoted, before, one, between, other, after] == [true; 6]
}

fn takes_outer_first(kernel: &mut Kernel) -> bool {
    takes_as_defined(
        kernel,
        OUTER,
        INNER,
        [Ok(false), Ok(true), Ok(true), Ok(true), Ok(true)],
    )
}

fn takes_inner_first(kernel: &mut Kernel) -> bool {
    takes_as_defined(
        kernel,
        INNER,
        OUTER,
        [Ok(true), Ok(false), Ok(true), Ok(true), Ok(true)],
    )
}

#[test]
fn what_was_quoted_is_a_term_once_its_names_are_defined(rt: HostRuntime) {
    assert!(rt; on_a_kernel(rt.alloc(), 0, takes_outer_first) == Ok(true));
}

#[test]
fn names_may_be_defined_in_the_other_order(rt: HostRuntime) {
    assert!(rt; on_a_kernel(rt.alloc(), 0, takes_inner_first) == Ok(true));
}

// Whether just this text is put behind a text for an event of this number.
fn explains(kernel: &mut Kernel, event: &[u8], number: u64, text: &[u8]) -> Result<bool, Memory> {
    let event = read(kernel, event)?;
    let mut out = Vec::from_slice(kernel.heap().alloc(), b"; ")?;
    kernel.explained(event, number, &EventParts, &mut out)?;
    Ok(out.as_slice() == text)
}

// The same for an event that holds a natural past the range.
fn explains_range(kernel: &mut Kernel, number: u64, text: &[u8]) -> Result<bool, Memory> {
    let mut out = Vec::from_slice(kernel.heap().alloc(), b"; ")?;
    kernel.explained_range(number, &mut out)?;
    Ok(out.as_slice() == text)
}

const WRONG: &[u8] = b"(verify wrong (pequal* x y) (axiom (pequal* x x)))";

const WHY_WRONG: &[u8] = b"; (WHY 2 CONCLUSION 1 (PEQUAL* X Y) (PEQUAL* X X))\n";

fn explains_refusals(kernel: &mut Kernel) -> bool {
    [
        explains(kernel, REFL, 1, b"; ") == Ok(true),
        explains(kernel, WRONG, 2, WHY_WRONG) == Ok(true),
        explains_range(kernel, 3, b"; (WHY 3 RANGE)\n") == Ok(true),
        shows(kernel, 1) == Ok(true),
    ] == [true; 4]
}

#[test]
fn an_event_that_is_refused_is_explained(rt: HostRuntime) {
    assert!(rt; on_a_kernel(rt.alloc(), 0, explains_refusals) == Ok(true));
}
