//! Examples of LF dequantise, LF correlate and LF smooth, run; and what a host knows of the lists that it lends to them.

#![tactic(auto)]

mod lent;

pub use lent::{dequantised_lists, smoothed_lists};

#[cfg(test)]
mod tests {
    use frame::{Frame, Stage};
    use grid::{Shape, Xyb};
    use lf::{Correlation, lf_correlate, lf_dequantise, lf_smooth};
    use refusal::Refusal;
    use std::test::Fail;
    use trials::{HostAnswer, grids, opened, told, views};
    use varmap::Cell;

    // 3 × 3 cells, with one number beyond the width of each row.
    const SHAPE: Shape = Shape {
        width: 3,
        height: 3,
        stride: 4,
    };

    // The frame's stage after a call, and the answer.
    type Seen = (u32, HostAnswer);

    fn seen(frame: &Frame, answer: Result<u32, Refusal>) -> Seen {
        (frame.stage().number(), told(answer))
    }

    // A refusal in this stage that names no place.
    fn refused(stage: u32, reason: u32) -> Seen {
        (stage, Err((reason, 0, 0, 0)))
    }

    // A frame of 3 × 3 cells in a stage.
    fn framed(stage: Stage) -> Result<Frame, Refusal> {
        opened(&mut [Cell::EMPTY; 12], SHAPE, stage)
    }

    // LF dequantise, with the first twelve numbers for X and Y, and the others for B in a grid so wide.
    fn dequantised(
        stage: Stage,
        numbers: &[i32; 24],
        width: usize,
        scale: f32,
        b: &mut [f32],
    ) -> Result<Seen, Refusal> {
        let mut frame = framed(stage)?;
        let (front, back) = numbers.split_at(12);
        let mut given = views(front, front, back, SHAPE);
        given.b.shape.width = width;
        let scales = Xyb {
            x: 0.5f32,
            y: 1.0,
            b: scale,
        };
        let (mut xs, mut ys) = ([7.0f32; 12], [7.0f32; 12]);
        let Xyb {
            mut x,
            mut y,
            mut b,
        } = grids(&mut xs, &mut ys, b, SHAPE);
        let answer = lf_dequantise(&mut frame, &mut x, &mut y, &mut b, given, scales);
        Ok(seen(&frame, answer))
    }

    #[test]
    fn dequantise(rt: HostRuntime) -> Result<(), Fail> {
        let mut b = [7.0f32; 12];
        let mut numbers = [3i32; 24];
        let endless = f32::INFINITY;
        for (stage, width, scale, expected, what) in [
            (Stage::LfDequantised, 3, 0.25, refused(1, 1), "TURN"),
            (Stage::Placing, 2, endless, refused(0, 2), "SHAPE"),
            (Stage::Placing, 3, endless, refused(0, 9), "FLOAT"),
        ] {
            let found = dequantised(stage, &numbers, width, scale, &mut b)?;
            assert_eq!(rt; found, expected, "{what}");
        }
        assert!(rt; b[6] == 7.0, "nothing is written yet");
        let good = dequantised(Stage::Placing, &numbers, 3, 0.25, &mut b)?;
        assert_eq!(rt; good, (1, Ok(0)), "accepted");
        assert!(rt;
            (b[6] == 0.75) & (b[7] == 7.0),
            "3 by 0.25, and beyond the width"
        );
        numbers[19] = 16_777_217;
        numbers[18] = -16_777_216;
        let limit = dequantised(Stage::Placing, &numbers, 3, 1.0, &mut b)?;
        assert_eq!(rt; limit, (1, Ok(0)), "the limit");
        assert!(rt; b[6] == -16_777_216.0);
        numbers[18] = 16_777_217;
        numbers[21] = -16_777_217;
        let beyond = dequantised(Stage::Placing, &numbers, 3, endless, &mut b)?;
        assert_eq!(rt; beyond, (0, Err((8, 2, 2, 1))), "RANGE");
        Ok(())
    }

    // LF correlate of X 5, Y 2, B 1.
    fn correlated(
        stage: Stage,
        width: usize,
        by: Correlation,
        x: &mut [f32],
    ) -> Result<Seen, Refusal> {
        let mut frame = framed(stage)?;
        let (mut ys, mut bs) = ([2.0f32; 12], [1.0f32; 12]);
        let Xyb {
            mut x,
            mut y,
            mut b,
        } = grids(x, &mut ys, &mut bs, SHAPE);
        y.shape.width = width;
        let answer = lf_correlate(&mut frame, &mut x, y.view(), &mut b, by);
        Ok(seen(&frame, answer))
    }

    #[test]
    fn correlate(rt: HostRuntime) -> Result<(), Fail> {
        let by = Correlation {
            colour_factor: 84,
            base_correlation_x: 0.0,
            base_correlation_b: 1.0,
            x_factor_lf: 212,
            b_factor_lf: 128,
        };
        let endless = Correlation {
            base_correlation_b: f32::NAN,
            ..by
        };
        let nought = Correlation {
            colour_factor: 0,
            ..endless
        };
        let large = Correlation {
            colour_factor: 65_794,
            ..by
        };
        let byte = Correlation {
            b_factor_lf: 256,
            ..by
        };
        let mut x = [5.0f32; 12];
        let ready = Stage::LfDequantised;
        for (stage, width, by, expected, what) in [
            (Stage::Placing, 3, by, refused(0, 1), "TURN"),
            (Stage::LfSmoothed, 3, by, refused(3, 1), "TURN again"),
            (ready, 2, nought, refused(1, 2), "SHAPE"),
            (ready, 3, nought, refused(1, 8), "RANGE: 0"),
            (ready, 3, large, refused(1, 8), "RANGE: 65,794"),
            (ready, 3, byte, refused(1, 8), "RANGE: 256"),
            (ready, 3, endless, refused(1, 9), "FLOAT"),
        ] {
            let found = correlated(stage, width, by, &mut x)?;
            assert_eq!(rt; found, expected, "{what}");
        }
        assert!(rt; x[0] == 5.0, "nothing is written yet");
        let good = correlated(ready, 3, by, &mut x)?;
        assert_eq!(rt; good, (2, Ok(0)), "accepted");
        assert!(rt;
            (x[0] == 7.0) & (x[3] == 5.0),
            "5 and once 2, and beyond the width"
        );
        Ok(())
    }

    // LF smooth of X 1, Y 2, B 3.
    fn smoothed(
        stage: Stage,
        width: usize,
        step: f32,
        scratch: &mut [f32],
    ) -> Result<Seen, Refusal> {
        let mut frame = framed(stage)?;
        let (mut xs, mut ys, mut bs) = ([1.0f32; 12], [2.0f32; 12], [3.0f32; 12]);
        let Xyb {
            mut x,
            mut y,
            mut b,
        } = grids(&mut xs, &mut ys, &mut bs, SHAPE);
        b.shape.width = width;
        let steps = Xyb {
            x: 1.0f32,
            y: 1.0,
            b: step,
        };
        let answer = lf_smooth(&mut frame, &mut x, &mut y, &mut b, steps, scratch);
        Ok(seen(&frame, answer))
    }

    #[test]
    fn smooth(rt: HostRuntime) -> Result<(), Fail> {
        let mut short = [9.0f32; 26];
        let mut long = [9.0f32; 27];
        let stage = Stage::LfDequantised;
        let early = smoothed(Stage::Placing, 3, 1.0, &mut long)?;
        assert_eq!(rt; early, refused(0, 1), "TURN");
        let narrow = smoothed(stage, 2, 0.0, &mut short)?;
        assert_eq!(rt; narrow, refused(1, 2), "SHAPE");
        let tight = smoothed(stage, 3, 0.0, &mut short)?;
        assert_eq!(rt; tight, refused(1, 3), "SCRATCH");
        let nought = smoothed(stage, 3, 0.0, &mut long)?;
        assert_eq!(rt; nought, refused(1, 9), "FLOAT: 0");
        let endless = smoothed(stage, 3, f32::INFINITY, &mut long)?;
        assert_eq!(rt; endless, refused(1, 9), "FLOAT: infinity");
        assert!(rt; long == [9.0; 27], "scratch is as it was");
        let good = smoothed(stage, 3, 1.0, &mut long)?;
        assert_eq!(rt; good, (3, Ok(0)), "from 1");
        let later = smoothed(Stage::LfCorrelated, 3, 1.0, &mut long)?;
        assert_eq!(rt; later, (3, Ok(0)), "from 2");
        Ok(())
    }
}
