ghost use Rattle.tmw_cuts.specs.Shared.{bit_at};
ghost use Rattle.std.specs.Prelude.{ℕ, ◌<◌, ◌≡◌};

/// Returns the lowest place of the mask.
#[inline(always)]
pub fn lowest(mask: u8) -> usize
    requires { 0 < mask }
    ensures within { result < 8 }
    ensures among { bit_at mask result ≡ 1 }
    ensures lowest { (i : ℕ) → i < result → bit_at mask i ≡ 0 }
{
    mask.trailing_zeros() as usize
}
