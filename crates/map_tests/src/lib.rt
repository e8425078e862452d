//! Examples of `open` and `place`, and of what the tests share, run.

#![tactic(auto)]

#[cfg(test)]
mod tests {
    use frame::Frame;
    use grid::{Grid, Shape, Xyb};
    use refusal::Refusal;
    use std::test::Fail;
    use trials::{Picture, alike, filled, padded, three, told, within};
    use varmap::{Cell, Record};

    // A frame as `open` leaves it; `trials::opened` leads one to a stage.
    fn begun(list: &mut [Cell], shape: Shape) -> Result<Frame, Refusal> {
        Frame::open(shape.width, shape.height, &mut Grid { list, shape })
    }

    fn covered(dx: u32, dy: u32) -> Cell {
        Cell {
            holds: Record::Covered { dx, dy },
        }
    }

    #[test]
    fn places(rt: HostRuntime) -> Result<(), Fail> {
        let mut list = [Cell::EMPTY; 16];
        let shape = Shape::dense(4, 4);
        let frame = begun(&mut list, shape)?;
        let map = &mut Grid {
            list: &mut list,
            shape,
        };
        for (kind, x, y, hf_mul, answer, what) in [
            (4, 2, 2, 1, Ok(0), "placed"),
            (0, 3, 3, 1, Err((7, 0, 3, 3)), "taken"),
            (4, 1, 1, 1, Err((7, 0, 2, 2)), "taken further on"),
            (4, 3, 0, 1, Err((6, 0, 0, 0)), "leaves the map"),
            (14, 0, 0, 1, Err((5, 0, 0, 0)), "kind 14"),
            (17, 0, 0, 1, Err((5, 0, 0, 0)), "kind 17"),
            (27, 0, 0, 1, Err((5, 0, 0, 0)), "kind 27"),
            (0, 0, 0, 0, Err((8, 0, 0, 0)), "hf_mul 0"),
            (0, 0, 0, 256, Err((8, 0, 0, 0)), "hf_mul 256"),
            (0, 0, 0, 255, Ok(0), "hf_mul 255"),
        ] {
            assert_eq!(rt;
                told(frame.place(map, kind, x, y, hf_mul)),
                answer,
                "{what}"
            );
        }
        Ok(())
    }

    #[test]
    fn edges(rt: HostRuntime) {
        let mut list = [Cell::EMPTY; 129];
        for (width, height, stride, answer, what) in [
            (128, 1, 128, Ok(0), "128 across"),
            (129, 1, 129, Err((2, 0, 0, 0)), "129 across"),
            (1, 128, 1, Ok(0), "128 down"),
            (1, 129, 1, Err((2, 0, 0, 0)), "129 down"),
            (0, 1, 1, Err((2, 0, 0, 0)), "0 across"),
            (3, 1, 2, Err((2, 0, 0, 0)), "stride below the width"),
            (1, 2, 129, Err((2, 0, 0, 0)), "list too short"),
        ] {
            let shape = Shape {
                width,
                height,
                stride,
            };
            let opening = begun(&mut list, shape);
            assert_eq!(rt; told(opening.map(|_| 0)), answer, "{what}");
        }
    }

    // The elements beyond the width stay.
    #[test]
    fn padding(rt: HostRuntime) -> Result<(), Fail> {
        let mark = covered(9, 9);
        let mut list = [mark; 8];
        let shape = padded(2, 2, 2);
        let frame = begun(&mut list, shape)?;
        assert_eq!(rt; list[1], Cell::EMPTY);
        assert_eq!(rt; list[2], mark);
        let map = &mut Grid {
            list: &mut list,
            shape,
        };
        assert_eq!(rt; told(frame.place(map, 7, 0, 1, 3)), Ok(0));
        assert_eq!(rt; list[3], mark);
        assert_eq!(rt; list[5], covered(1, 0));
        assert_eq!(rt; list[6], mark);
        Ok(())
    }

    // An unlawful map: a cell that points nowhere.
    #[test]
    fn unlawful(rt: HostRuntime) -> Result<(), Fail> {
        let mut list = [Cell::EMPTY; 4];
        let shape = Shape::dense(2, 2);
        let frame = begun(&mut list, shape)?;
        list[3] = covered(1, 1);
        let map = &mut Grid {
            list: &mut list,
            shape,
        };
        assert_eq!(rt; told(frame.place(map, 0, 0, 0, 1)), Err((4, 0, 1, 1)));
        Ok(())
    }

    // The numbers from 1 on, as they are drawn: into a grid row by row, and into X, Y and B in this order.
    #[test]
    fn draws(rt: HostRuntime) -> Result<(), Fail> {
        let mut n = 0u32;
        let mut draw = || {
            n = n.wrapping_add(1);
            Ok(n)
        };
        let shape = padded(2, 2, 1);
        let list = filled(rt.alloc(), shape, 99, &mut draw)?;
        assert_eq!(rt; list.as_slice(), [1, 2, 99, 3, 4, 99].as_slice());
        let inside = within(rt.alloc(), &list, shape)?;
        assert_eq!(rt; inside.as_slice(), [1, 2, 3, 4].as_slice());
        let Xyb { x, y, b } = three(&mut draw)?;
        assert_eq!(rt; [x, y, b], [5, 6, 7]);
        let Xyb { x, y, b } = alike(x);
        assert_eq!(rt; [x, y, b], [5, 5, 5]);
        let picture = Picture::drawn(rt.alloc(), padded(1, 2, 1), 0, &mut draw)?;
        assert_eq!(rt; picture.lists.x.as_slice(), [8, 0, 9, 0].as_slice());
        assert_eq!(rt; picture.lists.y.as_slice(), [10, 0, 11, 0].as_slice());
        assert_eq!(rt; picture.lists.b.as_slice(), [12, 0, 13, 0].as_slice());
        Ok(())
    }
}
