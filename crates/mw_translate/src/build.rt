//! Lists and terms from their parts.
ghost use Rattle.std.specs.Prelude.{◌≡◌, IfOk};
ghost use Rattle.mw_model.specs.Terms.Object.{Pair, symbol, list1, list2, list3};
ghost use Rattle.mw_heap.specs.Objects.{object_at, IsIn, Grows};
ghost use Rattle.mw_heap.specs.Words.{word_object};

use mw_heap::{Heap, Memory, Ref, Word};

/// Makes the list (a). The one error is out of memory.
pub fn list_of_one(heap: &mut Heap, a: Ref) -> Result<Ref, Memory>
    requires { IsIn heap.old.objects a }
    ensures grows { Grows heap.old.objects heap.new.objects }
    ensures made { IfOk result (λ r. IsIn heap.new.objects r × (object_at heap.new.objects r ≡ list1 (object_at heap.old.objects a))) }
{
    let nil = heap.nil()?;
    heap.cons(a, nil)
}

/// Makes the list (a b). The one error is out of memory.
pub fn list_of_two(heap: &mut Heap, a: Ref, b: Ref) -> Result<Ref, Memory>
    requires first_in { IsIn heap.old.objects a }
    requires second_in { IsIn heap.old.objects b }
    ensures grows { Grows heap.old.objects heap.new.objects }
    ensures made { IfOk result (λ r. IsIn heap.new.objects r × (object_at heap.new.objects r ≡ list2 (object_at heap.old.objects a) (object_at heap.old.objects b))) }
{
    let rest = list_of_one(heap, b)?;
    heap.cons(a, rest)
}

// Makes the list (a b c).
pub(crate) fn list_of_three(heap: &mut Heap, a: Ref, b: Ref, c: Ref) -> Result<Ref, Memory>
    requires first_in { IsIn heap.old.objects a }
    requires second_in { IsIn heap.old.objects b }
    requires third_in { IsIn heap.old.objects c }
    ensures grows { Grows heap.old.objects heap.new.objects }
    ensures made { IfOk result (λ r. IsIn heap.new.objects r × (object_at heap.new.objects r ≡ list3 (object_at heap.old.objects a) (object_at heap.old.objects b) (object_at heap.old.objects c))) }
{
    let rest = list_of_two(heap, b, c)?;
    heap.cons(a, rest)
}

// Makes the list with the word in front of these members.
fn headed(heap: &mut Heap, word: Word, members: Ref) -> Result<Ref, Memory>
    requires { IsIn heap.old.objects members }
    ensures grows { Grows heap.old.objects heap.new.objects }
    ensures made { IfOk result (λ r. IsIn heap.new.objects r × (object_at heap.new.objects r ≡ Pair (word_object word) (object_at heap.old.objects members))) }
{
    let head = heap.word(word)?;
    heap.cons(head, members)
}

/// Makes (WORD a). The one error is out of memory.
pub fn call_of_one(heap: &mut Heap, word: Word, a: Ref) -> Result<Ref, Memory>
    requires { IsIn heap.old.objects a }
    ensures grows { Grows heap.old.objects heap.new.objects }
    ensures made { IfOk result (λ r. IsIn heap.new.objects r × (object_at heap.new.objects r ≡ list2 (word_object word) (object_at heap.old.objects a))) }
{
    let members = list_of_one(heap, a)?;
    headed(heap, word, members)
}

/// Makes (WORD a b). The one error is out of memory.
pub fn call_of_two(heap: &mut Heap, word: Word, a: Ref, b: Ref) -> Result<Ref, Memory>
    requires first_in { IsIn heap.old.objects a }
    requires second_in { IsIn heap.old.objects b }
    ensures grows { Grows heap.old.objects heap.new.objects }
    ensures made { IfOk result (λ r. IsIn heap.new.objects r × (object_at heap.new.objects r ≡ list3 (word_object word) (object_at heap.old.objects a) (object_at heap.old.objects b))) }
{
    let members = list_of_two(heap, a, b)?;
    headed(heap, word, members)
}

// Makes (IF a b c).
pub(crate) fn if_of(heap: &mut Heap, a: Ref, b: Ref, c: Ref) -> Result<Ref, Memory>
    requires first_in { IsIn heap.old.objects a }
    requires second_in { IsIn heap.old.objects b }
    requires third_in { IsIn heap.old.objects c }
    ensures grows { Grows heap.old.objects heap.new.objects }
    ensures made { IfOk result (λ r. IsIn heap.new.objects r × (object_at heap.new.objects r ≡ Pair (symbol "IF") (list3 (object_at heap.old.objects a) (object_at heap.old.objects b) (object_at heap.old.objects c)))) }
{
    let members = list_of_three(heap, a, b, c)?;
    headed(heap, Word::If, members)
}

/// Makes (QUOTE WORD). The one error is out of memory.
pub fn quoted_symbol(heap: &mut Heap, word: Word) -> Result<Ref, Memory>
    ensures grows { Grows heap.old.objects heap.new.objects }
    ensures made { IfOk result (λ r. IsIn heap.new.objects r × (object_at heap.new.objects r ≡ list2 (symbol "QUOTE") (word_object word))) }
{
    let constant = heap.word(word)?;
    call_of_one(heap, Word::Quote, constant)
}
