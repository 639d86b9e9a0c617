//! Printing, up to a bound.
ghost use Rattle.std.specs.Prelude.{◌≡◌, ◌+◌, ◌≤◌, length, min, IfSome};
ghost use Rattle.mw_model.specs.Events.Fate.{longest};
ghost use Rattle.mw_model.specs.Texts.Printing.{text_of};
ghost use Rattle.mw_heap.specs.Objects.{IsIn, object_at};
ghost use Rattle.mw_print.specs.Printing.{Prints};

use crate::text::text;
use mw_heap::{Heap, Ref, View, is_bare_name};

// The longest text that is shown, in bytes, as the definition of fates has it: the heap keeps it beside each cell in two bytes.
pub(crate) const LONGEST: u64 = 65536;

/// What printing did.
#[derive(Clone, Copy, Debug, PartialEq, Eq)]
pub enum Printed {
    /// The text was written.
    Ok,
    /// The text has more than 65,536 bytes.
    Long,
    /// Memory was refused.
    Memory,
}

/// The number of bytes in an object's text, or 65,537 if there are more than 65,536. It takes no time to speak of, however long the
/// text is.
pub fn text_len(heap: &Heap, x: Ref) -> u64
    requires { IsIn heap.now.objects x }
    ensures { result ≡ min (length (text_of (object_at heap.now.objects x))) (longest + 1) }
{
    heap.lengths(x).0
}

// The name of a symbol whose text it is.
fn bare_name(heap: &Heap, x: Ref) -> Option<&[u8]>
    requires { IsIn heap.now.objects x }
    ensures { IfSome result (λ name. name.now ≡ text_of (object_at heap.now.objects x)) }
{
    let View::Symbol = heap.view(x) else {
        return None;
    };
    let name = heap.name_of(x);
    if is_bare_name(name) { Some(name) } else { None }
}

// Puts a text after what `out` has.
fn put(out: &mut Vec<u8>, text: &[u8]) -> Printed
    requires { length text.now ≤ longest }
    ensures { Prints text.now result out.old.items out.new.items }
{
    match out.extend_from_slice(text) {
        Ok(()) => Printed::Ok,
        Err(_) => Printed::Memory,
    }
}

/// Writes the text of an object after what `out` has, if it has at most 65,536 bytes. If it has more, or memory runs out, `out`
/// keeps its bytes.
pub fn print(heap: &Heap, x: Ref, out: &mut Vec<u8>) -> Printed
    requires { IsIn heap.now.objects x }
    ensures { Prints (text_of (object_at heap.now.objects x)) result out.old.items out.new.items }
{
    if text_len(heap, x) > LONGEST {
        return Printed::Long;
    }
    if let Some(name) = bare_name(heap, x) {
        return put(out, name);
    }
    match text(heap, *out.allocator(), x) {
        Ok(text) => put(out, text.as_slice()),
        Err(_) => Printed::Memory,
    }
}
