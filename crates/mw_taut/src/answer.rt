//! The lines of the answers to a book of formulas. Each is appended to what is there. The error is out of memory: then a part of the line
//! may have been written.
ghost use Rattle.std.specs.Prelude.{◌≡◌, ◌≤◌, ◌-◌, ◌++◌, ◌∷◌, List, ℕ, OnOk, codes};
ghost use Rattle.mw_model.specs.Terms.Object.{Object};
ghost use Rattle.mw_model.specs.Texts.Printing.{numeral};
ghost use Rattle.mw_model.specs.Reports.Report.{word_text};
ghost use Rattle.mw_commands.specs.Commands.TautologyBook.{OwesTautology};
ghost use Rattle.mw_taut.specs.Counts.{formulas_line};
ghost use Rattle.mw_taut.specs.Verdicts.{IsVerdict};

use crate::verdict::Verdict;
use mw_heap::{Heap, Memory};
use mw_print::{write_line, write_text_and_number};

// Writes a comment on a datum: its number, the text of its first member, and the reason why it has no proof. The reason has the end of the
// line in it, unless more of it is still to come.
fn write_reason(lines: &mut Vec<u8>, number: u64, word: &[u8], reason: &[u8]) -> Result<(), Memory>
    ensures { OnOk result (lines.new.items ≡ lines.old.items ++ (codes "; " ++ (numeral number ++ 32 ∷ (word.now ++ 32 ∷ reason.now)))) }
{
    write_text_and_number(lines, b"; ", number)?;
    lines.push(b' ')?;
    lines.extend_from_slice(word)?;
    lines.push(b' ')?;
    lines.extend_from_slice(reason)?;
    Ok(())
}

/// Writes the answer to the datum of this number, by what was found of it. The word is the text that is shown of its first member.
pub fn write_answer(
    lines: &mut Vec<u8>,
    heap: &Heap,
    number: u64,
    word: &[u8],
    verdict: &Verdict,
) -> Result<(), Memory>
    requires found { (x : Object) × (word.now ≡ word_text x) × IsVerdict heap.now.objects x verdict.now }
    ensures { OnOk result ((x : Object) → word.now ≡ word_text x → IsVerdict heap.now.objects x verdict.now → (piece : List ℕ) × (lines.new.items ≡ lines.old.items ++ piece) × OwesTautology (number, x) piece) }
{
    match verdict {
        Verdict::Shape => write_reason(lines, number, word, b"SHAPE\n"),
        Verdict::Many => write_reason(lines, number, word, b"MANY\n"),
        Verdict::Fails(choice) => {
            write_reason(lines, number, word, b"FALSE ")?;
            write_line(lines, heap, *choice)
        }
        Verdict::Theorem(theorem) => write_line(lines, heap, *theorem),
    }
}

/// Writes how many formulas there were and how many were proved.
pub fn write_formulas(lines: &mut Vec<u8>, formulas: u64, unproved: u64) -> Result<(), Memory>
    requires { unproved ≤ formulas }
    ensures { OnOk result (lines.new.items ≡ lines.old.items ++ formulas_line formulas (formulas - unproved)) }
{
    write_text_and_number(lines, b"formulas ", formulas)?;
    write_text_and_number(lines, b" proved ", formulas - unproved)?;
    lines.push(b'\n')?;
    Ok(())
}
