//! Objects that are kept once, names in their order, and the words that the crates above share.
use crate::shared::holds;
use mw_forms::pair;
use mw_heap::{Heap, Mark, Memory, Refusal, View, Word, is_bare_name};

// Whether a natural over 2^32 and a pair of it are seen as what they are, the pair is kept once, and one object stays without it.
fn keeps_a_pair_once(heap: &mut Heap) -> Result<bool, Memory> {
    let large = heap.nat(1 << 100)?;
    let mark = heap.mark();
    let pair = heap.cons(large, large)?;
    let again = heap.cons(large, large)?;
    let is_large = heap.view(large) == View::Nat(1 << 100);
    let is_pair = heap.view(pair) == View::Pair(large, large);
    let is_same = heap.same(pair, again);
    heap.cut_back(mark);
    Ok([is_large, is_pair, is_same, heap.mark().cells() == 1] == [true; 4])
}

// Whether a natural below 2^32 is kept once, also after one with the same last ten bits was noted in its place.
fn keeps_small_naturals_once(heap: &mut Heap) -> Result<bool, Memory> {
    let five = heap.small(5)?;
    let other = heap.small(5 + 1024)?;
    let again = heap.small(5)?;
    let made = heap.nat(5)?;
    Ok(
        [
            other != five,
            again == five,
            made == five,
            heap.mark().cells() == 2,
        ] == [true; 4],
    )
}

// Whether a natural is made anew after a cut, where another object came to its noted place.
fn makes_a_small_natural_anew(heap: &mut Heap) -> Result<bool, Memory> {
    let five = heap.small(5)?;
    heap.cut_back(Mark::before(five));
    let nil = heap.nil()?;
    let again = heap.small(5)?;
    Ok(
        [
            nil == five,
            again != nil,
            heap.small_number(again) == Some(5),
        ] == [true; 3],
    )
}

// Whether the naturals below 2^32, and no other objects, have a small number.
fn numbers_small_naturals(heap: &mut Heap) -> Result<bool, Memory> {
    let last = heap.small(u32::MAX)?;
    let is_last = heap.small_number(last) == Some(u32::MAX);
    let large = heap.nat(1 << 32)?;
    let is_large = heap.small_number(large).is_none();
    let nil = heap.nil()?;
    Ok([is_last, is_large, heap.small_number(nil).is_none()] == [true; 3])
}

// Whether the list (1) has its parts and its length, and 1 has no parts.
fn has_the_parts_of_a_pair(heap: &mut Heap) -> Result<bool, Memory> {
    let one = heap.small(1)?;
    let is_atom = heap.pair_of(one).is_none();
    let nil = heap.nil()?;
    let list = pair(heap, one, nil)?;
    Ok(
        [
            is_atom,
            heap.pair_of(list) == Some((one, nil)),
            heap.lengths(list) == (3, 2),
        ] == [true; 3],
    )
}

// Whether NIL is found by its name, and made anew after it was forgotten.
fn has_one_nil(heap: &mut Heap) -> Result<bool, Memory> {
    let before = heap.symbol(b"BEFORE")?;
    let nil = heap.nil()?;
    let is_nil = heap.is_nil(Some(nil));
    let is_named = heap.symbol(b"NIL") == Ok(nil);
    heap.cut_back(heap.mark_after(before));
    let other = heap.symbol(b"OTHER")?;
    let again = heap.nil()?;
    Ok(
        [
            is_nil,
            is_named,
            heap.is_nil(Some(again)),
            !heap.same(again, other),
        ] == [true; 4],
    )
}

// Whether a word is found in its place, and by its name after a cut took it away; and whether a heap that has other objects first keeps none.
fn keeps_the_words(heap: &mut Heap) -> Result<bool, Memory> {
    heap.keep_words()?;
    let quote = heap.word(Word::Quote)?;
    let is_named = heap.symbol(b"QUOTE") == Ok(quote);
    let is_word = heap.is_word(Some(quote), Word::Quote);
    let is_other = heap.is_word(Some(quote), Word::Nil);
    let is_nil = heap.is_word(None, Word::Nil);
    heap.cut_back(Mark::before(quote));
    let again = heap.word(Word::Quote)?;
    let is_again = heap.is_word(Some(again), Word::Quote);
    heap.cut_back(Mark::before(heap.nth(0)));
    heap.nat(1)?;
    Ok(
        [
            is_named,
            is_word,
            !is_other,
            is_nil,
            is_again,
            heap.keep_words().is_err(),
        ] == [true; 6],
    )
}

// Whether the answers about the symbols CAR and CDR, of which CAR came first, are as expected.
fn orders_names(heap: &mut Heap) -> Result<bool, Memory> {
    let car = heap.symbol(b"CAR")?;
    let cdr = heap.symbol(b"CDR")?;
    Ok(
        [
            heap.name_of(car) == b"CAR".as_slice(),
            heap.symbol_less(car, cdr),
            !heap.symbol_less(car, car),
            heap.nth(0) == car,
            heap.lengths(car) == (3, 6),
            heap.mark_after(cdr) == heap.mark(),
            Mark::before(cdr) == heap.mark_after(car),
        ] == [true; 7],
    )
}

#[test]
fn a_pair_is_kept_once(rt: HostRuntime) {
    assert!(rt; holds(rt.alloc(), keeps_a_pair_once));
}

#[test]
fn a_small_natural_is_kept_once(rt: HostRuntime) {
    assert!(rt; holds(rt.alloc(), keeps_small_naturals_once));
    assert!(rt; holds(rt.alloc(), makes_a_small_natural_anew));
}

#[test]
fn a_small_natural_has_its_number(rt: HostRuntime) {
    assert!(rt; holds(rt.alloc(), numbers_small_naturals));
}

#[test]
fn a_pair_has_its_parts(rt: HostRuntime) {
    assert!(rt; holds(rt.alloc(), has_the_parts_of_a_pair));
}

#[test]
fn the_words_are_kept(rt: HostRuntime) {
    assert!(rt; holds(rt.alloc(), keeps_the_words));
}

#[test]
fn there_is_one_nil(rt: HostRuntime) {
    assert!(rt; holds(rt.alloc(), has_one_nil));
}

#[test]
fn names_are_ordered(rt: HostRuntime) {
    assert!(rt; holds(rt.alloc(), orders_names));
}

#[test]
fn some_names_want_no_bars(rt: HostRuntime) {
    assert!(rt; is_bare_name(b"SYMBOL-<"));
    assert!(rt; !is_bare_name(b"-1"));
    assert!(rt; !is_bare_name(b"car"));
}

#[test]
fn a_refusal_has_its_number_and_word(rt: HostRuntime) {
    assert!(rt; Refusal::Nil.number() == 12);
    assert!(rt; Refusal::Nil.word() == "NIL");
}
