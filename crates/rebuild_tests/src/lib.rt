//! Examples of rebuild over 1 × 2 cells, run, and two calls as a host makes them.

#![tactic(auto)]

mod host;

pub use host::{forward_area, rebuild_lists};

#[cfg(test)]
mod tests {
    use frame::{Frame, Stage};
    use grid::{Grid, Shape, View, Xyb};
    use kernel::Kernel;
    use rebuild::rebuild;
    use refusal::Refusal;
    use std::test::Fail;
    use transform::{Mean, Vardct};
    use trials::{HostAnswer, alike, grids, opened, told};
    use varmap::{Cell, Record};

    // What a call is given: the stage, the width of X's samples, the map, each LF sample, and how long scratch is.
    #[derive(Clone, Copy)]
    struct Trial {
        stage: Stage,
        width: usize,
        cells: [Cell; 2],
        lf: f32,
        room: usize,
    }

    fn lead(kind: u32) -> Cell {
        Cell {
            holds: Record::Lead { kind, hf_mul: 1 },
        }
    }

    fn covered(dy: u32) -> Cell {
        Cell {
            holds: Record::Covered { dx: 0, dy },
        }
    }

    // One varblock of kind 6.
    fn tall() -> Trial {
        Trial {
            stage: Stage::HfDequantised,
            width: 8,
            cells: [lead(6), covered(1)],
            lf: 9.0,
            room: 512,
        }
    }

    // The answer, the stage after the call, and how many samples of each channel are the LF sample.
    #[derive(Clone, Copy)]
    struct Outcome {
        answer: HostAnswer,
        stage: u32,
        alike: (usize, usize, usize),
    }

    fn count(list: &[f32], value: f32) -> usize {
        list.iter().filter(|v| **v == value).count()
    }

    // Calls with what the trial says, over these samples.
    fn given<K: Kernel>(
        kernel: &K,
        t: Trial,
        frame: &mut Frame,
        x: &mut Grid<f32>,
        y: &mut Grid<f32>,
        b: &mut Grid<f32>,
    ) -> Result<u32, Refusal> {
        let map = View {
            list: &t.cells,
            shape: Shape::dense(1, 2),
        };
        let flat = [t.lf; 2];
        let lf = alike(View {
            list: &flat,
            shape: Shape::dense(1, 2),
        });
        let mut scratch = [0.0f32; 512];
        let part = &mut scratch[..t.room.min(512)];
        rebuild(frame, kernel, map, lf, x, y, b, part)
    }

    // Over samples that are all zero.
    fn call<K: Kernel>(kernel: &K, t: Trial) -> Result<Outcome, Refusal> {
        let mut frame = opened(&mut [Cell::EMPTY; 2], Shape::dense(1, 2), t.stage)?;
        let (mut xs, mut ys, mut bs) = ([0.0f32; 128], [0.0f32; 128], [0.0f32; 128]);
        let Xyb {
            mut x,
            mut y,
            mut b,
        } = grids(&mut xs, &mut ys, &mut bs, Shape::dense(8, 16));
        x.shape.width = t.width;
        let answer = given(kernel, t, &mut frame, &mut x, &mut y, &mut b);
        Ok(Outcome {
            answer: told(answer),
            stage: frame.stage().number(),
            alike: (count(&xs, t.lf), count(&ys, t.lf), count(&bs, t.lf)),
        })
    }

    #[test]
    fn nines(rt: HostRuntime) -> Result<(), Fail> {
        let o = call(&Vardct, tall())?;
        assert_eq!(rt; o.answer, Ok(1));
        assert_eq!(rt; o.stage, 6);
        assert_eq!(rt; o.alike, (128, 128, 128));
        Ok(())
    }

    // The samples of an empty cell stay.
    #[test]
    fn fives_of_the_mean(rt: HostRuntime) -> Result<(), Fail> {
        let mut t = tall();
        t.cells = [lead(0), Cell::EMPTY];
        t.lf = 5.0;
        let o = call(&Mean, t)?;
        assert_eq!(rt; o.answer, Ok(1));
        assert_eq!(rt; o.alike, (64, 64, 64));
        Ok(())
    }

    #[test]
    fn room(rt: HostRuntime) -> Result<(), Fail> {
        let mut t = tall();
        t.room = 511;
        let o = call(&Vardct, t)?;
        assert_eq!(rt; o.answer, Err((3, 0, 0, 0)));
        assert_eq!(rt; o.stage, 4, "stays");
        assert_eq!(rt; o.alike, (0, 0, 0), "nothing is written");
        Ok(())
    }

    #[test]
    fn turn(rt: HostRuntime) -> Result<(), Fail> {
        let mut t = tall();
        t.stage = Stage::LfSmoothed;
        assert_eq!(rt; call(&Vardct, t)?.answer, Err((1, 0, 0, 0)), "stage 3");
        t.stage = Stage::HfCorrelated;
        assert_eq!(rt; call(&Vardct, t)?.answer, Ok(1), "stage 5");
        Ok(())
    }

    #[test]
    fn shape_and_map(rt: HostRuntime) -> Result<(), Fail> {
        let mut t = tall();
        t.width = 7;
        assert_eq!(rt; call(&Vardct, t)?.answer, Err((2, 0, 0, 0)), "7 across");
        t.width = 8;
        t.cells = [lead(0), covered(1)];
        assert_eq!(rt;
            call(&Vardct, t)?.answer,
            Err((4, 0, 0, 1)),
            "points nowhere"
        );
        Ok(())
    }
}
