// The C function behind the program `script` (P19, E12): what is printed for any bytes, in any buffer.
#![tactic(auto)]

ghost use Rattle.std.specs.Prelude.{◌≡◌};
ghost use Rattle.spec_sheet.specs.Text.{write_text};
ghost use Rattle.text_write.specs.Written.{WrittenIs};
ghost use Rattle.script_output.specs.Output.{script_output};

// What `script` prints for an input: 4 where the buffer is short, else 0 and the length; a refusal leaves buffer and length as they were.
#[unsafe(no_mangle)]
pub extern "C" fn pilgonca_script(input: &[u8], buffer: &mut [u8], length: &mut usize) -> usize
    ensures { WrittenIs (write_text (script_output input.now) buffer.old) result length.old length.new
        buffer.new }
{
    let w = script_output::script(input, buffer);
    text_write::wrote_code(w, length)
}
