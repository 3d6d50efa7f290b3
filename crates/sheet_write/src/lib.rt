// Sheet write (W) on any table and buffer. The same writer (crate `sheet_write_table`) counts first, on an empty part of the buffer, so that a short buffer
// stays as it is.
#![tactic(auto)]

ghost use Rattle.std.specs.Prelude.{◌≡◌, true};
ghost use Rattle.spec_model.specs.Check.{table_accepted};
ghost use Rattle.table_record.specs.Store.{raw_table};
ghost use Rattle.spec_sheet.specs.Text.{write};
ghost use Rattle.text_write.specs.Written.{written_of};

use base_numbers::refusal::Refusal;
use table_record::{Counts, LINK_BYTES, TYPE_BYTES};

// Sheet write of a table that passed the check of 2: 4 (W2), or the text and its length (W4).
fn write_checked(
    buf: &mut [u8],
    b: &[u8; TYPE_BYTES],
    l: &[u8; LINK_BYTES],
    c: Counts,
) -> Result<usize, Refusal>
    requires { table_accepted (raw_table b.now l.now c) ≡ true }
    ensures { written_of result buf.new ≡ write (raw_table b.now l.now c) buf.old }
{
    let need = sheet_write_table::put_sheet(&mut buf[..0], b, l, c);
    if buf.len() < need {
        return Err(Refusal::ShortBuffer);
    }
    Ok(sheet_write_table::put_sheet(buf, b, l, c))
}

// Sheet write of any table handed in: 2 before all else (W1).
pub fn write_sheet(
    buf: &mut [u8],
    b: &[u8; TYPE_BYTES],
    l: &[u8; LINK_BYTES],
    c: Counts,
) -> Result<usize, Refusal>
    ensures { written_of result buf.new ≡ write (raw_table b.now l.now c) buf.old }
{
    if !table_check::table_fits(b, l, c) {
        return Err(Refusal::OutOfRange);
    }
    write_checked(buf, b, l, c)
}
