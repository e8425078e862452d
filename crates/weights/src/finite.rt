//! Whether weights are numbers to reckon with.

ghost use Rattle.std.specs.Prelude.{◌≡◌};
ghost use Rattle.weights.specs.Weights.{weights_finite};

use refusal::{Reason, Refusal};

/// Refuses the first number of a channel's weights that is not finite.
// the channel is a number, as a host reads it in a refusal
pub fn check_finite(channel: usize, weights: &[f32]) -> Result<(), Refusal>
    ensures { result ≡ weights_finite channel weights.now }
{
    for (i, weight) in weights.iter().enumerate() {
        if !weight.is_finite() {
            return Err(Refusal::at(Reason::Float, channel, i, 0));
        }
    }
    Ok(())
}
