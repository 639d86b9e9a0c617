//! Lists of objects.
ghost use Rattle.std.specs.Prelude.{◌≡◌, All, IfOk};
ghost use Rattle.mw_model.specs.Terms.Object.{Pair};
ghost use Rattle.mw_heap.specs.Objects.{object_at, IsIn, Grows};
ghost use Rattle.mw_heap.specs.Lists.{list_object};
ghost use Rattle.mw_heap.specs.Words.{word_object};

use crate::{Heap, Memory, Ref, Word};

/// The list of these members. The error is out of memory: the heap may then have grown.
pub fn list_of(heap: &mut Heap, members: &[Ref]) -> Result<Ref, Memory>
    requires { All (IsIn heap.old.objects) members.now }
    ensures grows { Grows heap.old.objects heap.new.objects }
    ensures made { IfOk result (λ r. IsIn heap.new.objects r × (object_at heap.new.objects r ≡ list_object heap.old.objects members.now)) }
{
    let mut list = heap.nil()?;
    for index in (0..members.len()).rev() {
        list = heap.cons(members[index], list)?;
    }
    Ok(list)
}

/// The list of the word and, after it, of these members. The error is that of `list_of`.
pub fn form_of(heap: &mut Heap, word: Word, members: &[Ref]) -> Result<Ref, Memory>
    requires { All (IsIn heap.old.objects) members.now }
    ensures grows { Grows heap.old.objects heap.new.objects }
    ensures made { IfOk result (λ r. IsIn heap.new.objects r × (object_at heap.new.objects r ≡ Pair (word_object word) (list_object heap.old.objects members.now))) }
{
    let rest = list_of(heap, members)?;
    let head = heap.word(word)?;
    heap.cons(head, rest)
}
