//! The events that theorems rest on.
ghost use Rattle.std.specs.Prelude.{◌≡◌, true};
ghost use Rattle.mw_model.specs.Terms.Object.{is_name};

use mw_forms::{boxed, read};
use mw_heap::{Heap, Memory};
use mw_slice::{Picked, Slicer};
use std::alloc::Global;

// A theorem of the function F, another theorem with the same formula, and one whose proof names that formula.
const EVENTS: [&[u8]; 5] = [
    b"(define f (x) x nil ())",
    b"(verify a (pequal* (f x) x) (axiom (pequal* (f x) x)))",
    b"(print f)",
    b"(verify b (pequal* (f x) x) (axiom (pequal* (f x) x)))",
    b"(verify c (pequal* y y) (contraction (pequal* y y) ((theorem (pequal* (f x) x)))))",
];

// The second profile, a theorem, a switch, a text that is shown, and a theorem after the switch.
const SWITCHED: [&[u8]; 5] = [
    b"(profile 2)",
    b"(verify a (pequal* x x) (axiom (pequal* x x)))",
    b"(switch s)",
    b"(print x)",
    b"(verify b (pequal* y y) (axiom (pequal* y y)))",
];

// Adds five events, each from a heap that has those before it too.
fn add_events(heap: &mut Heap, slicer: &mut Slicer, texts: &[&[u8]; 5]) -> Result<(), Memory> {
    for text in texts {
        let event = read(heap, text)?;
        slicer.add(heap, event)?;
    }
    Ok(())
}

// Whether just these places are picked for a name.
fn picks(slicer: &Slicer, name: &[u8], places: &[u64]) -> bool
    requires { is_name name.now ≡ true }
{
    match slicer.pick(name) {
        Picked::Events(picked) => picked.as_slice() == places,
        Picked::Absent => places.is_empty(),
        Picked::Memory => false,
    }
}

// What a test answers on a new heap and a new slicer.
fn on_a_slicer<F: FnOnce(&mut Heap, &mut Slicer) -> Result<bool, Memory>>(
    alloc: Global,
    test: F,
) -> Result<bool, Memory>
    requires { F.IsAlwaysCallable test }
{
    let mut heap = boxed(alloc)?;
    let mut slicer = Box::new(alloc, Slicer::new(alloc))?;
    test(&mut heap, &mut slicer)
}

// Whether each theorem is picked with what it rests on.
fn picks_each(heap: &mut Heap, slicer: &mut Slicer) -> Result<bool, Memory> {
    add_events(heap, slicer, &EVENTS)?;
    Ok(
        [
            picks(slicer, b"A", &[0, 1]),
            picks(slicer, b"B", &[0, 3]),
            picks(slicer, b"C", &[0, 1, 4]),
            picks(slicer, b"F", &[]),
        ] == [true; 4],
    )
}

#[test]
fn a_theorem_is_picked_with_what_it_rests_on(rt: HostRuntime) {
    assert!(rt; on_a_slicer(rt.alloc(), picks_each) == Ok(true));
}

// Whether the second profile is picked with a theorem, and all that changes the theory with one after a switch.
fn picks_switched(heap: &mut Heap, slicer: &mut Slicer) -> Result<bool, Memory> {
    add_events(heap, slicer, &SWITCHED)?;
    Ok(
        [
            picks(slicer, b"A", &[0, 1]),
            picks(slicer, b"B", &[0, 1, 2, 4]),
        ] == [true; 2],
    )
}

#[test]
fn after_a_switch_every_change_is_picked(rt: HostRuntime) {
    assert!(rt; on_a_slicer(rt.alloc(), picks_switched) == Ok(true));
}

// Whether a theorem is there, whether it is gone once it is taken back, and whether the heap of the event before it is then as it was.
fn takes_back(heap: &mut Heap, slicer: &mut Slicer) -> Result<bool, Memory> {
    let event = read(heap, SWITCHED[0])?;
    slicer.add(heap, event)?;
    let before = slicer.heap(0).mark();
    let event = read(heap, SWITCHED[1])?;
    slicer.add(heap, event)?;
    let is_there = picks(slicer, b"A", &[0, 1]);
    slicer.take_back();
    Ok(
        [
            is_there,
            picks(slicer, b"A", &[]),
            slicer.heap(0).mark() == before,
        ] == [true; 3],
    )
}

#[test]
fn an_event_is_taken_back(rt: HostRuntime) {
    assert!(rt; on_a_slicer(rt.alloc(), takes_back) == Ok(true));
}
