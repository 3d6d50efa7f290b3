// Operands: signed 64-bit numbers at every entry point, of which one becomes the number of a thing of which there are n. And the refusals by name.
#![tactic(auto)]

ghost use Rattle.std.specs.Prelude.{◌≡◌};
ghost use Rattle.base_numbers.specs.Index.{index_of};

pub mod refusal;

// The number that z names, or n itself, which is none of them.
// Kept: n and no Option, as the theorems of Q12 speak of it (`index-within`, `index-above`).
pub fn index_of(z: i64, n: usize) -> usize
    ensures { result ≡ index_of z n }
{
    match usize::try_from(z) {
        Ok(k) if k < n => k,
        _ => n,
    }
}
