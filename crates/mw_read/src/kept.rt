//! Bytes that earlier pieces had, of a text that has begun.
ghost use Rattle.std.specs.Prelude.{◌≡◌, ◌<◌, ◌++◌, length, OnOk};

use mw_heap::Memory;

// These bytes come after what was kept, where that has bytes.
pub(crate) fn keep_after(kept: &mut Vec<u8>, bytes: &[u8]) -> Result<(), Memory>
    ensures some { OnOk result (0 < length kept.old.items → kept.new.items ≡ kept.old.items ++ bytes.now) }
    ensures none { OnOk result (length kept.old.items ≡ 0 → kept.new.items ≡ kept.old.items) }
{
    if !kept.is_empty() {
        kept.extend_from_slice(bytes)?;
    }
    Ok(())
}

// The whole text: what was kept, where that has bytes, and else these.
pub(crate) fn whole_text<'a>(kept: &'a [u8], bytes: &'a [u8]) -> &'a [u8]
    ensures kept { 0 < length kept.now → result.now ≡ kept.now }
    ensures none { length kept.now ≡ 0 → result.now ≡ bytes.now }
{
    if kept.is_empty() { bytes } else { kept }
}
