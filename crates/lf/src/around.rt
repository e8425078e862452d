//! The average around a cell.

ghost use Rattle.std.specs.Prelude.{◌≡◌};
ghost use Rattle.grid.specs.Index.{Inside};
ghost use Rattle.grid.specs.Plane.{seen, sample};
ghost use Rattle.lf.specs.Smooth.{Around, up_down, average, change};

use grid::Raster;

const SCALE_SELF: f32 = 0.052262735;

const SCALE_SIDE: f32 = 0.2034514;

const SCALE_DIAG: f32 = 0.03348292;

pub fn sample_at(samples: Raster<f32>, x: usize, y: usize) -> f32
    requires { Inside samples.shape x y }
    ensures { result ≡ sample (seen samples.entry) x y }
{
    samples.get(x, y)
}

/// The sum of the samples above and below (x, y).
fn up_down(samples: Raster<f32>, x: usize, y: usize) -> f32
    requires { Around samples.shape 0 1 x y }
    ensures { result ≡ up_down (seen samples.entry) x y }
{
    sample_at(samples, x, y - 1) + sample_at(samples, x, y + 1)
}

/// The weighted average of the sample (x, y) and the eight around it.
fn average(samples: Raster<f32>, x: usize, y: usize) -> f32
    requires { Around samples.shape 1 1 x y }
    ensures { result ≡ average (seen samples.entry) x y }
{
    let own = sample_at(samples, x, y);
    let side = sample_at(samples, x - 1, y) + sample_at(samples, x + 1, y) + up_down(samples, x, y);
    let diag = up_down(samples, x - 1, y) + up_down(samples, x + 1, y);
    own * SCALE_SELF + side * SCALE_SIDE + diag * SCALE_DIAG
}

/// From the sample (x, y) to the average around it.
pub fn change(samples: Raster<f32>, x: usize, y: usize) -> f32
    requires { Around samples.shape 1 1 x y }
    ensures { result ≡ change (seen samples.entry) x y }
{
    average(samples, x, y) - sample_at(samples, x, y)
}
