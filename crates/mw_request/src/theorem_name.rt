//! The name of a theorem, as the command line spells it.
ghost use Rattle.std.specs.Prelude.{◌≡◌, ℕ, true, List, [], ◌∷◌, ◌++◌, Some, None, IfOk, IfSome, IfNone, option_map};
ghost use Rattle.mw_model.specs.Terms.Object.{Name, Object, Symbol, is_name, name_of_bytes};
ghost use Rattle.mw_model.specs.Values.Primitive.{is_symbol};
ghost use Rattle.mw_model.specs.Texts.Grammar.{book, trees};
ghost use Rattle.mw_request.specs.Arguments as arguments;
ghost use Rattle.mw_heap.specs.Objects.{object_at, IsIn};
ghost use Rattle.mw_read.specs.Standing.{Stands};
ghost use Rattle.mw_read.specs.Feeding.{IsReady};

use mw_heap::{Heap, Memory, Ref, View};
use mw_read::{Reader, Step};
use std::alloc::Global;
use std::marker::Model;

/// The bytes of a symbol.
#[derive(Drop)]
pub struct TheoremName {
    bytes: Vec<u8>,
}

impl Model for TheoremName {
    ghost use Rattle.std.specs.Prelude.{◌≡◌, ℕ, true, List};
    ghost use Rattle.mw_model.specs.Terms.Object.{is_name};

    ghost Value = { List ℕ };

    ghost view = { λ n. n.bytes.items };

    ghost invariant = { λ n. is_name n.bytes.items ≡ true };
}

impl TheoremName {
    // That of this symbol.
    fn of_symbol(heap: &Heap, x: Ref) -> Result<TheoremName, Memory>
        requires within { IsIn heap.now.objects x }
        requires symbol { is_symbol (object_at heap.now.objects x) ≡ true }
        ensures { IfOk result (λ n. object_at heap.now.objects x ≡ Symbol (name_of_bytes n)) }
    {
        let bytes = Vec::from_slice(heap.alloc(), heap.name_of(x))?;
        Ok(TheoremName { bytes })
    }

    /// The bytes.
    pub fn as_bytes(&self) -> &[u8]
        ensures bytes { result.now ≡ self.now }
        ensures named { is_name result.now ≡ true }
    {
        &self.bytes
    }
}

// A reader of a book of this one line.
fn reader_of(alloc: Global, text: &[u8]) -> Result<Reader, Memory>
    ensures unread { IfOk result (λ r. r.unread ≡ text.now ++ 10 ∷ []) }
    ensures finished { IfOk result (λ r. r.finished ≡ true) }
    ensures stands { IfOk result (λ r. (os : List Object) → Stands os r.parser [] []) }
    ensures ready { IfOk result (λ r. (os : List Object) → IsReady os r) }
{
    let mut reader = Reader::new(alloc);
    reader.feed(text)?;
    reader.feed(b"\n")?;
    reader.finish();
    Ok(reader)
}

// The datum that the book is alone. Nothing where it has a fault or another number of data, or its datum a natural past the range.
fn only_datum(heap: &mut Heap, reader: &mut Reader) -> Result<Option<Ref>, Memory>
    requires finished { reader.old.finished ≡ true }
    requires stands { Stands heap.old.objects reader.old.parser [] [] }
    requires ready { IsReady heap.old.objects reader.old }
    ensures within { IfOk result (λ o. IfSome o (IsIn heap.new.objects)) }
    ensures some { IfOk result (λ o. IfSome o (λ x. trees reader.old.unread ≡ book (object_at heap.new.objects x ∷ []) None)) }
    ensures none { IfOk result (λ o. IfNone o (arguments.symbol_among (trees reader.old.unread).events (trees reader.old.unread).fault ≡ None)) }
{
    match reader.next(heap) {
        Step::Datum(x) => match reader.next(heap) {
            Step::End => Ok(Some(x)),
            Step::Memory => Err(Memory),
            _ => Ok(None),
        },
        Step::Memory => Err(Memory),
        _ => Ok(None),
    }
}

// The name of the symbol that the book is alone.
fn name_in(heap: &mut Heap, reader: &mut Reader) -> Result<Option<TheoremName>, Memory>
    requires finished { reader.old.finished ≡ true }
    requires stands { Stands heap.old.objects reader.old.parser [] [] }
    requires ready { IsReady heap.old.objects reader.old }
    ensures { IfOk result (λ o. option_map name_of_bytes o ≡ arguments.symbol_among (trees reader.old.unread).events (trees reader.old.unread).fault) }
{
    let Some(x) = only_datum(heap, reader)? else {
        return Ok(None);
    };
    match heap.view(x) {
        View::Symbol => {
            let name = TheoremName::of_symbol(heap, x)?;
            Ok(Some(name))
        }
        _ => Ok(None),
    }
}

/// The name that the text spells: as a book of one line it is that symbol alone. Nothing where it is another text.
pub(crate) fn name_of(alloc: Global, text: &str) -> Result<Option<TheoremName>, Memory>
    ensures { IfOk result (λ o. option_map name_of_bytes o ≡ arguments.name_of (Some text.now)) }
{
    let mut heap = Box::new(alloc, Heap::new(alloc)?)?;
    let mut reader = Box::new(alloc, reader_of(alloc, text.as_bytes())?)?;
    name_in(&mut heap, &mut reader)
}
