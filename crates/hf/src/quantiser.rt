//! The numbers that go with a call of HF dequantise.

ghost use Rattle.std.specs.Prelude.{◌≡◌};
ghost use Rattle.hf.specs.Answer.{scales, scales_x, scales_y, scales_b};

use grid::Xyb;
use hf_block::Scales;

/// The numbers that go with a call.
#[derive(Clone, Copy)]
pub struct Quantiser {
    pub global_scale: u32,
    pub qm_scale: Xyb<f32>,
    pub quant_bias: Xyb<f32>,
    pub quant_bias_numerator: f32,
}

impl Quantiser {
    /// The numbers that go with a channel of this scale and this bias.
    fn scales(self, qm_scale: f32, quant_bias: f32) -> Scales
        ensures { result ≡ scales self qm_scale quant_bias }
    {
        Scales {
            global_scale: self.global_scale,
            qm_scale,
            quant_bias,
            quant_bias_numerator: self.quant_bias_numerator,
        }
    }

    /// The numbers that go with each channel.
    pub fn all_scales(self) -> Xyb<Scales>
        ensures { result ≡ record { x = scales_x self; y = scales_y self; b = scales_b self } }
    {
        Xyb {
            x: self.scales(self.qm_scale.x, self.quant_bias.x),
            y: self.scales(self.qm_scale.y, self.quant_bias.y),
            b: self.scales(self.qm_scale.b, self.quant_bias.b),
        }
    }
}
