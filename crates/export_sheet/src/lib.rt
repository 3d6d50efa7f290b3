// The reader as a C function (E2, E12), in a library of its own: who only asks whether a sheet is accepted waits for no other proof. The table that it stores
// is three arrays, as in export_table.
#![tactic(auto)]

ghost use Rattle.std.specs.Prelude.{◌≡◌};
ghost use Rattle.table_record.specs.Layout.{counts_in};
ghost use Rattle.spec_sheet.specs.Sheet.{read as read_sheet};
ghost use Rattle.sheet_read.specs.View.{sheet_for, sheet_of};

use table_record::{LINK_BYTES, TYPE_BYTES};

// Sheet read (S) of any bytes: 0 and the table, with offset 0; or the refusal and the byte offset of the line, with a table whose every count and byte is 0
// (B21).
#[unsafe(no_mangle)]
pub extern "C" fn pilgonca_read(
    text: &[u8],
    types: &mut [u8; TYPE_BYTES],
    links: &mut [u8; LINK_BYTES],
    counts: &mut [usize; 5],
    at: &mut usize,
) -> usize
    ensures { sheet_of result at.new types.new links.new (counts_in counts.new)
        ≡ sheet_for (read_sheet text.now) }
{
    // Kept: the C interface, which tells a refusal by its number and its line by an offset.
    match sheet_read::read_into(text, types, links) {
        Ok(c) => {
            *counts = [c.subjects, c.methods, c.cats, c.sheet, c.types];
            *at = 0;
            0
        }
        Err(e) => {
            *counts = [0; 5];
            *at = e.at;
            e.refusal.number()
        }
    }
}
