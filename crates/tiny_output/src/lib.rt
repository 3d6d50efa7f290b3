// The program `tiny`: every tiny sheet, one behind the other in a lent buffer (P21, P26). Each is stored as a table and written by the sheet's own writer
// (crate `sheet_write_table`); no text of it is kept.
#![tactic(auto)]

ghost use Rattle.std.specs.Prelude.{◌≡◌, ◌≤◌, ◌<◌};
ghost use Rattle.spec_sheet.specs.Text.{text, write_text};
ghost use Rattle.spec_tiny.specs.Tiny.{tiny_count, tiny_text};
ghost use Rattle.spec_tiny.specs.Numbered.{tiny_at};
ghost use Rattle.text_write.specs.Fill.{Filled};
ghost use Rattle.text_write.specs.Written.{written_of};

use base_numbers::refusal::Refusal;
use table_record::{LINK_BYTES, TYPE_BYTES};
use tiny_record::SHEETS;

// The bytes of all of them (P25).
pub const PRINTED_BYTES: usize = 13659;

// Sheet i. Its table is stored in `types`; a sheet without categories has no links to read.
fn write_one(
    buf: &mut [u8],
    types: &mut [u8; TYPE_BYTES],
    links: &[u8; LINK_BYTES],
    i: usize,
) -> usize
    requires { i < tiny_count }
    ensures is { Filled buf.old buf.new (text (tiny_at i)) result }
    ensures few { result ≤ 200 }
{
    table_store::put_type(types, 0, tiny_record::type_of(i));
    sheet_write_table::put_sheet(buf, types, links, tiny_record::counts_of(i))
}

fn write_all(buf: &mut [u8], types: &mut [u8; TYPE_BYTES], links: &[u8; LINK_BYTES]) -> usize
    ensures { Filled buf.old buf.new tiny_text result }
{
    let mut at: usize = 0;
    for i in 0..SHEETS {
        let k = at.min(buf.len());
        at += write_one(&mut buf[k..], types, links, i);
    }
    at
}

// Every tiny sheet in front of a buffer of any length: 4 where they do not fit, and then the buffer stays as it was.
pub fn tiny(buf: &mut [u8]) -> Result<usize, Refusal>
    ensures { written_of result buf.new ≡ write_text tiny_text buf.old }
{
    if buf.len() < PRINTED_BYTES {
        return Err(Refusal::ShortBuffer);
    }
    let mut types = table_record::empty_types();
    let links = table_record::empty_links();
    Ok(write_all(buf, &mut types, &links))
}
