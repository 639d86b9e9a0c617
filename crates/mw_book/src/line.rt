//! The lines of reports. What is written goes after what is there already, in time in proportion to it. The error is out of memory: then
//! a part of it may stand.
ghost use Rattle.std.specs.Prelude.{◌≡◌, ◌≤◌, ◌++◌, ◌∷◌, [], true, OnOk};
ghost use Rattle.mw_model.specs.Terms.Object.{Object};
ghost use Rattle.mw_model.specs.Values.Primitive.{is_symbol};
ghost use Rattle.mw_model.specs.Reports.Report.{dash, fate_text, kind_word, symbol_text};
ghost use Rattle.mw_heap.specs.Objects.{object_at, IsIn};
ghost use Rattle.mw_read.specs.Kinds.{kind_of};
ghost use Rattle.mw_read.specs.Shown.{ShowsEvent, IsShown, shown_text};
ghost use Rattle.mw_kernel.specs.Fates.{fate_of};
ghost use Rattle.mw_book.specs.Lines.{line_begun, summary_of, fault_line};

use mw_heap::{Heap, Memory, Ref};
use mw_kernel::Fate;
use mw_print::{Printed, print, write_number, write_text_and_number};
use mw_read::SyntaxKind;

/// Begins the line of an event: its number, its word and its label, of which those that are none are shown by a dash.
pub(crate) fn begin_line(
    lines: &mut Vec<u8>,
    heap: &Heap,
    number: u64,
    word: Option<Ref>,
    label: Option<Ref>,
) -> Result<(), Memory>
    requires shows { (e : Object) × ShowsEvent heap.now.objects word label e }
    ensures { OnOk result ((e : Object) → ShowsEvent heap.now.objects word label e → lines.new.items ≡ lines.old.items ++ line_begun number e) }
{
    write_number(lines, number)?;
    lines.push(b' ')?;
    write_shown(lines, heap, word)?;
    lines.push(b' ')?;
    write_shown(lines, heap, label)?;
    lines.push(b' ')?;
    Ok(())
}

/// Writes the line of an event, which was begun, and ends it with its fate.
pub(crate) fn write_line(lines: &mut Vec<u8>, begun: &[u8], fate: &Fate) -> Result<(), Memory>
    ensures { OnOk result (lines.new.items ≡ lines.old.items ++ (begun.now ++ (fate_text (fate_of fate.now) ++ 10 ∷ []))) }
{
    lines.extend_from_slice(begun)?;
    end_line(lines, fate)
}

// Ends the line of an event with its fate.
fn end_line(lines: &mut Vec<u8>, fate: &Fate) -> Result<(), Memory>
    ensures { OnOk result (lines.new.items ≡ lines.old.items ++ (fate_text (fate_of fate.now) ++ 10 ∷ [])) }
{
    match fate {
        Fate::Accepted(value) => {
            lines.extend_from_slice(b"accepted")?;
            if !value.as_slice().is_empty() {
                lines.push(b' ')?;
                lines.extend_from_slice(value.as_slice())?;
            }
        }
        Fate::Refused(reason) => {
            lines.extend_from_slice(b"refused ")?;
            lines.extend_from_slice(reason.word().as_bytes())?;
        }
    }
    lines.push(b'\n')?;
    Ok(())
}

/// The last line, for a book that was read to its end.
pub(crate) fn write_summary(
    lines: &mut Vec<u8>,
    events: u64,
    refused: u64,
    level: u64,
) -> Result<(), Memory>
    requires { refused ≤ events }
    ensures { OnOk result (lines.new.items ≡ lines.old.items ++ summary_of events refused level) }
{
    write_text_and_number(lines, b"events ", events)?;
    write_text_and_number(lines, b" accepted ", events - refused)?;
    write_text_and_number(lines, b" refused ", refused)?;
    write_text_and_number(lines, b" level ", level)?;
    lines.push(b'\n')?;
    Ok(())
}

/// The last line, for a book with a fault.
pub(crate) fn write_fault(lines: &mut Vec<u8>, kind: SyntaxKind, offset: u64) -> Result<(), Memory>
    ensures { OnOk result (lines.new.items ≡ lines.old.items ++ fault_line (kind_of kind) offset) }
{
    lines.extend_from_slice(b"syntax ")?;
    lines.extend_from_slice(kind_bytes(kind))?;
    write_text_and_number(lines, b" at ", offset)?;
    lines.push(b'\n')?;
    Ok(())
}

// Writes a dash, for what is not shown.
fn write_dash(lines: &mut Vec<u8>) -> Result<(), Memory>
    ensures { OnOk result (lines.new.items ≡ lines.old.items ++ dash) }
{
    lines.push(b'-')?;
    Ok(())
}

// Writes a symbol, or a dash where its text is too long.
fn write_symbol(lines: &mut Vec<u8>, heap: &Heap, x: Ref) -> Result<(), Memory>
    requires within { IsIn heap.now.objects x }
    requires symbol { is_symbol (object_at heap.now.objects x) ≡ true }
    ensures { OnOk result (lines.new.items ≡ lines.old.items ++ symbol_text (object_at heap.now.objects x)) }
{
    match print(heap, x, lines) {
        Printed::Ok => Ok(()),
        Printed::Long => write_dash(lines),
        Printed::Memory => Err(Memory),
    }
}

/// Writes a member that is shown, or a dash where there is none.
pub(crate) fn write_shown(lines: &mut Vec<u8>, heap: &Heap, x: Option<Ref>) -> Result<(), Memory>
    requires { IsShown heap.now.objects x }
    ensures { OnOk result (lines.new.items ≡ lines.old.items ++ shown_text heap.now.objects x) }
{
    match x {
        Some(x) => write_symbol(lines, heap, x),
        None => write_dash(lines),
    }
}

// The word of a fault.
fn kind_bytes(kind: SyntaxKind) -> &'static [u8]
    ensures { result.now ≡ kind_word (kind_of kind) }
{
    match kind {
        SyntaxKind::End => b"END",
        SyntaxKind::Close => b"CLOSE",
        SyntaxKind::Dot => b"DOT",
        SyntaxKind::Token => b"TOKEN",
        SyntaxKind::Byte => b"BYTE",
        SyntaxKind::Label => b"LABEL",
        SyntaxKind::Length => b"LENGTH",
    }
}
