#![tactic(auto)]
// Floats and their bit patterns, for every float and every pattern: `f32::from_bits` and `f32::to_bits` leave NaNs out. And which are finite.
ghost use Rattle.std.specs.Prelude.{◌≡◌};
ghost use Rattle.std.specs.Float.{binary32};
ghost use Rattle.std.specs.Float.Ieee.{of_bits, to_bits};
ghost use Rattle.std.specs.Float.Ieee.Scale.{finite};

// The float of a bit pattern; of every NaN's pattern, the NaN.
pub fn from_bits(bits: u32) -> f32
    ensures { result ≡ of_bits binary32 bits }
{
    if 0x7f80_0000 < bits % 0x8000_0000 {
        return f32::NAN;
    }
    f32::from_bits(bits)
}

// The bit pattern of a float, one for all NaNs. The float comes back from it.
pub fn to_bits(d: f32) -> u32
    ensures { (result ≡ to_bits binary32 d) × (of_bits binary32 result ≡ d) }
{
    if d.is_nan() {
        return 0x7fc0_0000;
    }
    f32::to_bits(d)
}

// Whether a float is neither an infinity nor the NaN.
#[tactic(auto, using(crate::proofs::Patterns::finite_is))]
pub fn is_finite(d: f32) -> bool
    ensures { result ≡ finite d }
{
    d.is_finite()
}
