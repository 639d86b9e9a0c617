//! The text of names.
ghost use Rattle.std.specs.Prelude.{◌≡◌, ◌++◌, true, OnOk};
ghost use Rattle.mw_model.specs.Terms.Object.{is_name, name_of_bytes};
ghost use Rattle.mw_model.specs.Texts.Printing.{name_text};

use mw_heap::{Memory, is_bare_name};

// Writes the text of the symbol of this name.
pub(crate) fn write_name(name: &[u8], out: &mut Vec<u8>) -> Result<(), Memory>
    requires { is_name name.now ≡ true }
    ensures { OnOk result (out.new.items ≡ out.old.items ++ name_text (name_of_bytes name.now)) }
{
    if is_bare_name(name) {
        out.extend_from_slice(name)?;
        return Ok(());
    }
    out.push(b'|')?;
    out.extend_from_slice(name)?;
    out.push(b'|')?;
    Ok(())
}
