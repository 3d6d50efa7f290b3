// Bytes, decimals and lines, written in front of a buffer that is lent: `put_..` writes a piece of a line, `write_..` whole lines with their LF. A writer is
// total: it says how long its text is, and where the buffer has room for it, writes it and leaves the bytes behind it. On an empty part of a buffer it only
// counts. The rest of the buffer, lent to the next writer (F2), begins behind what was written: at the buffer's end, where the text was too long.
#![tactic(auto)]

ghost use Rattle.std.specs.Prelude.{◌≡◌, [], ◌∷◌, ◌+◌, ◌≤◌, ◌<◌, length, take};
ghost use Rattle.spec_sheet.specs.Numbers.{decimal};
ghost use Rattle.spec_sheet.specs.Text.{number_text};
ghost use Rattle.text_write.specs.Fill.{Filled, Lined};
ghost use Rattle.text_write.specs.Written.{wrote_numbered, number_of, value_of};

use base_numbers::refusal::Numbered;

// What a program prints: the first `length` bytes of `text`. Kept: a buffer with its length, since memory is fixed (no heap).
#[derive(Clone, Copy)]
pub struct Printed<const N: usize> {
    pub length: usize,
    pub text: [u8; N],
}

impl<const N: usize> Printed<N> {
    pub fn as_bytes(&self) -> &[u8]
        requires { self.now.length ≤ length self.now.text }
        ensures { result.now ≡ take self.now.length self.now.text }
    {
        &self.text[..self.length]
    }
}

// What a C function returns for a text's length or its refusal: the refusal's number, or 0 with the length handed out (E12).
pub fn wrote_code<E: Numbered>(w: Result<usize, E>, length: &mut usize) -> usize
    ensures { (result ≡ number_of (wrote_numbered E.numbered w)) × (length.new ≡ value_of length.old (wrote_numbered E.numbered w)) }
{
    match w {
        Ok(n) => {
            *length = n;
            0
        }
        Err(refusal) => refusal.to_number(),
    }
}

// One byte.
pub fn put_byte(buf: &mut [u8], b: u8) -> usize
    ensures { Filled buf.old buf.new (b ∷ []) result }
{
    if let Some(first) = buf.first_mut() {
        *first = b;
    }
    1
}

// The bytes of t.
// Kept: a `for`; by `copy_from_slice` libexport_table.a needs memmove from outside (the C interface).
pub fn put_bytes(buf: &mut [u8], t: &[u8]) -> usize
    ensures { Filled buf.old buf.new t.now result }
{
    let n = t.len();
    if n <= buf.len() {
        for i in 0..n {
            buf[i] = t[i];
        }
    }
    n
}

fn digit(d: usize) -> u8
    requires { d < 10 }
    ensures { result ≡ 48 + d }
{
    b'0' + d as u8
}

// A decimal (S21): the digits in front of the last, and the last in the rest of the buffer.
pub fn put_decimal(buf: &mut [u8], n: usize) -> usize
    ensures is { Filled buf.old buf.new (decimal n) result }
    ensures few { result ≤ 20 }
{
    if n < 10 {
        return put_byte(buf, digit(n));
    }
    let a = put_decimal(buf, n / 10);
    let k = a.min(buf.len());
    a + put_byte(&mut buf[k..], digit(n % 10))
}

// A key and a number.
pub fn put_number(buf: &mut [u8], key: &[u8], n: usize) -> usize
    requires { length key.now ≤ 16 }
    ensures is { Filled buf.old buf.new (number_text key.now n) result }
    ensures few { result ≤ 36 }
{
    let a = put_bytes(buf, key);
    let k = a.min(buf.len());
    a + put_decimal(&mut buf[k..], n)
}

// A line of a key and a number (W6).
pub fn write_number(buf: &mut [u8], key: &[u8], n: usize) -> usize
    requires { length key.now ≤ 16 }
    ensures is { Lined buf.old buf.new (number_text key.now n ∷ []) result }
    ensures few { result ≤ 37 }
{
    let a = put_number(buf, key, n);
    let k = a.min(buf.len());
    a + put_byte(&mut buf[k..], b'\n')
}

// A line of fixed bytes.
pub fn write_word(buf: &mut [u8], t: &[u8]) -> usize
    requires { length t.now ≤ 16 }
    ensures is { Lined buf.old buf.new (t.now ∷ []) result }
    ensures few { result ≤ 17 }
{
    let a = put_bytes(buf, t);
    let k = a.min(buf.len());
    a + put_byte(&mut buf[k..], b'\n')
}
