//! The arithmetic of one coefficient.

ghost use Rattle.std.specs.Prelude.{◌≡◌, ◌≤◌, true};
ghost use Rattle.channels.specs.Ranges.{in_range};
ghost use Rattle.hf_block.specs.Sample.{unbiased, multiplier as multiplier_of};

/// What the coefficients of a varblock are multiplied by besides their weights.
pub fn multiplier(global_scale: u32, hf_mul: u32, qm_scale: f32) -> f32
    requires scale { global_scale ≤ 73728 }
    requires mul { hf_mul ≤ 255 }
    ensures { result ≡ multiplier_of global_scale hf_mul qm_scale }
{
    65536.0 / (global_scale as f32 * hf_mul as f32) * qm_scale
}

/// A coefficient before its weight: those of magnitude at most 1 go by the bias, all others by the numerator.
pub fn unbias(coefficient: i32, bias: f32, numerator: f32) -> f32
    requires { in_range coefficient ≡ true }
    ensures { result ≡ unbiased bias numerator coefficient }
{
    let q = coefficient as f32;
    if coefficient.unsigned_abs() <= 1 {
        q * bias
    } else {
        q - numerator / q
    }
}
