// p and w from their bits.
ghost use Rattle.std.specs.Prelude.{◌≡◌, not};
ghost use Rattle.std.specs.Float.Ieee.{is_nan};
ghost use Rattle.job.specs.Float.{float, is_probability, is_weight_of, is_total};
ghost use Rattle.check_values.specs.Floats.{only_if};

// The bits of the sign, and of infinity; those of a NaN without its sign are above.
const SIGN: u64 = 0x8000000000000000;

const INFINITY: u64 = 0x7ff0000000000000;

// The float of some bits, but of a NaN's, at which `f64::from_bits` is undefined.
pub fn float_of(bits: u64) -> Option<f64>
    ensures { result ≡ only_if (not (is_nan (float bits))) (float bits) }
{
    if INFINITY < bits % SIGN {
        return None;
    }
    Some(f64::from_bits(bits))
}

// A probability: no NaN, and not above 1.
pub fn probability(bits: u64) -> Option<f64>
    ensures { result ≡ only_if (is_probability (float bits)) (float bits) }
{
    let p = float_of(bits)?;
    if 1.0 < p {
        return None;
    }
    Some(p)
}

// Not below zero, and finite; -0 is not below zero.
pub fn is_weight(x: f64) -> bool
    ensures { result ≡ is_weight_of x }
{
    !(x < 0.0) && x < f64::from_bits(INFINITY)
}

// A weight from its bits.
pub fn weight(bits: u64) -> Option<f64>
    ensures { result ≡ only_if (is_weight_of (float bits)) (float bits) }
{
    let w = float_of(bits)?;
    if !is_weight(w) {
        return None;
    }
    Some(w)
}

// A total: above zero, and finite.
pub fn is_total(t: f64) -> bool
    ensures { result ≡ is_total t }
{
    0.0 < t && t < f64::from_bits(INFINITY)
}
