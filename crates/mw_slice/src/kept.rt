//! The events of a slice, as they are written: after what the lines have. The error is out of memory: then a part of them may stand.
ghost use Rattle.std.specs.Prelude.{◌≡◌, ℕ, ◌<◌, All, List, ◌++◌, map, length, codes, OnOk};
ghost use Rattle.mw_model.specs.Texts.Printing.{numeral};
ghost use Rattle.mw_model.specs.Reports.Report.{spaced};
ghost use Rattle.mw_model.specs.Texts.Written.{IsDatumLine};
ghost use Rattle.mw_model.specs.Texts.Pieces.{InOrder, comment};
ghost use Rattle.mw_commands.specs.Commands.Slice.{event_at};
ghost use Rattle.mw_slice.specs.Slices.{events_of};

use crate::slicer::Slicer;
use mw_heap::Memory;
use mw_print::{write_line, write_text_and_number};

// The events at these places, each on a line.
fn write_kept(lines: &mut Vec<u8>, slicer: &Slicer, places: &[u64]) -> Result<(), Memory>
    requires { All (λ j. j < length (events_of slicer.now)) places.now }
    ensures { OnOk result ((body : List ℕ) × InOrder IsDatumLine (map (event_at (events_of slicer.now)) places.now) body × (lines.new.items ≡ lines.old.items ++ body)) }
{
    for &place in places {
        write_line(lines, slicer.heap(place), slicer.event(place))?;
    }
    Ok(())
}

/// Writes the events at these places, and of how many events they were kept.
pub fn write_slice(
    lines: &mut Vec<u8>,
    slicer: &Slicer,
    places: &[u64],
    events: u64,
) -> Result<(), Memory>
    requires { All (λ j. j < length (events_of slicer.now)) places.now }
    ensures { OnOk result ((body : List ℕ) × InOrder IsDatumLine (map (event_at (events_of slicer.now)) places.now) body × (lines.new.items ≡ lines.old.items ++ (body ++ comment (spaced (codes "kept") (spaced (numeral (length places.now)) (spaced (codes "of") (numeral events))))))) }
{
    write_kept(lines, slicer, places)?;
    write_text_and_number(lines, b"; kept ", places.len() as u64)?;
    write_text_and_number(lines, b" of ", events)?;
    lines.push(b'\n')?;
    Ok(())
}

/// Writes that none of the given number of events is the theorem.
pub fn write_absent(lines: &mut Vec<u8>, events: u64) -> Result<(), Memory>
    ensures { OnOk result (lines.new.items ≡ lines.old.items ++ comment (spaced (codes "none of") (numeral events))) }
{
    write_text_and_number(lines, b"; none of ", events)?;
    lines.push(b'\n')?;
    Ok(())
}
