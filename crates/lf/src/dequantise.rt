//! LF dequantise.

ghost use Rattle.std.specs.Prelude.{◌≡◌};
ghost use Rattle.grid.specs.Index.{Inside};
ghost use Rattle.grid.specs.Became.{Became};
ghost use Rattle.grid.specs.Plane.{lent, viewed, seen};
ghost use Rattle.grid.specs.Channels.{planes, all_viewed};
ghost use Rattle.refusal.specs.Verdicts.{kept_or};
ghost use Rattle.frame.specs.declared.stages.Stage.TheVariants as stage;
ghost use Rattle.frame.specs.Stages.{InStage};
ghost use Rattle.channels.specs.Checked.{all_numbers, Judged};
ghost use Rattle.lf.specs.Dequantise.{lf_dequantise_answer, dequantised, lf_dequantised};

use channels::{Numbers, check_channels};
use frame::{Frame, Stage};
use grid::{Brush, Grid, View, Xyb};
use refusal::{Reason, Refusal, require};

/// Each LF sample becomes its number times the channel's scale.
// kept as three parameters, not one `Xyb`: a host that puts lent lists two structs deep would not learn what became of them
pub fn lf_dequantise(
    frame: &mut Frame,
    x: &mut Grid<f32>,
    y: &mut Grid<f32>,
    b: &mut Grid<f32>,
    numbers: Xyb<View<i32>>,
    scales: Xyb<f32>,
) -> Result<u32, Refusal>
    ensures answer { result ≡ lf_dequantise_answer frame.old.w8 frame.old.h8 frame.old.stage (planes (lent x.old) (lent y.old) (lent b.old)) (planes (viewed numbers.entry.x) (viewed numbers.entry.y) (viewed numbers.entry.b)) scales }
    ensures stage { InStage frame.old frame.new (kept_or result frame.old.stage stage.LfDequantised) }
    ensures x { Became x.old x.new (kept_or result x.old.list.now (lf_dequantised (viewed numbers.entry.x) scales.x (lent x.old))) }
    ensures y { Became y.old y.new (kept_or result y.old.list.now (lf_dequantised (viewed numbers.entry.y) scales.y (lent y.old))) }
    ensures b { Became b.old b.new (kept_or result b.old.list.now (lf_dequantised (viewed numbers.entry.b) scales.b (lent b.old))) }
{
    let lf = Xyb {
        x: x.view(),
        y: y.view(),
        b: b.view(),
    };
    let numbers = judge(frame, lf, numbers, scales)?;
    x.paint_all(&Dequantised {
        numbers: numbers.x,
        scale: scales.x,
    });
    y.paint_all(&Dequantised {
        numbers: numbers.y,
        scale: scales.y,
    });
    b.paint_all(&Dequantised {
        numbers: numbers.b,
        scale: scales.b,
    });
    frame.lead_to(Stage::LfDequantised);
    Ok(0)
}

/// The LF numbers, unless LF dequantise is refused.
fn judge<'n>(
    frame: &Frame,
    lf: Xyb<View<'_, f32>>,
    numbers: Xyb<View<'n, i32>>,
    scales: Xyb<f32>,
) -> Result<Xyb<Numbers<'n>>, Refusal>
    ensures { Judged (lf_dequantise_answer frame.now.w8 frame.now.h8 frame.now.stage (all_viewed lf.entry) (all_viewed numbers.entry) scales) (λ n. all_numbers n ≡ all_viewed numbers.entry) result }
{
    let (w8, h8) = (frame.w8(), frame.h8());
    require(frame.stage().is_placing(), Reason::Turn)?;
    require(lf.fit(w8, h8), Reason::Shape)?;
    let grids = numbers.sized(w8, h8).ok_or(Reason::Shape)?;
    let numbers = check_channels(grids)?;
    require(scales.all(f32::is_finite), Reason::Float)?;
    Ok(numbers)
}

/// Makes a sample of the number at its place.
#[derive(Clone, Copy)]
struct Dequantised<'n> {
    numbers: Numbers<'n>,
    scale: f32,
}

impl<'n> Brush<f32> for Dequantised<'n> {
    ghost ready = { λ s x y. Inside s.numbers.grid.shape x y };

    ghost made = { λ s. dequantised (seen s.numbers.grid) s.scale };

    fn stroke(&self, x: usize, y: usize, _old: f32) -> f32 {
        self.numbers.get(x, y) as f32 * self.scale
    }
}
