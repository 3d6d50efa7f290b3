// The C function behind the program `tiny` (P26, E12).
#![tactic(auto)]

ghost use Rattle.spec_sheet.specs.Text.{write_text};
ghost use Rattle.text_write.specs.Written.{WrittenIs};
ghost use Rattle.spec_tiny.specs.Tiny.{tiny_text};

// Every tiny sheet in front of a buffer: 4 where it is short, else 0 and the length; a refusal leaves buffer and length as they were.
#[unsafe(no_mangle)]
pub extern "C" fn pilgonca_tiny(buffer: &mut [u8], length: &mut usize) -> usize
    ensures { WrittenIs (write_text tiny_text buffer.old) result length.old length.new buffer.new }
{
    let w = tiny_output::tiny(buffer);
    text_write::wrote_code(w, length)
}
