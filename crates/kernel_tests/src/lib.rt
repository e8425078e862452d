//! Examples of the kernels, run.

#![tactic(auto)]

#[cfg(test)]
mod tests {
    use cells::{aux_idct2_in_place, transform_dct2, transform_hornuss};
    use grid::Shape;
    use kernel::Kernel;
    use transform::{Mean, Vardct};

    // A cell in row order, with one number beyond the width of each row.
    const CELL: Shape = Shape {
        width: 8,
        height: 8,
        stride: 9,
    };

    #[test]
    fn butterfly(rt: HostRuntime) {
        let mut block = [5.0f32; 64];
        block[0] = 10.0;
        block[1] = 1.0;
        block[8] = 2.0;
        block[9] = 3.0;
        aux_idct2_in_place(&mut block, 2);
        assert!(rt; (block[0] == 16.0) & (block[1] == 6.0), "the first row");
        assert!(rt; (block[8] == 8.0) & (block[9] == 10.0), "the second row");
        assert!(rt; (block[2] == 5.0) & (block[16] == 5.0), "the others stay");
    }

    #[test]
    fn dct2_of_one_number(rt: HostRuntime) {
        let mut block = [0.0f32; 64];
        block[1] = 1.0;
        transform_dct2(&mut block);
        // the second number of the first row tells the upper half from the lower
        assert!(rt;
            (block[0] == 1.0) & (block[7] == 1.0) & (block[31] == 1.0),
            "the upper half"
        );
        assert!(rt; (block[32] == -1.0) & (block[63] == -1.0), "the lower half");
    }

    #[test]
    fn hornuss(rt: HostRuntime) {
        let mut block = [0.0f32; 64];
        block[0] = 4.0;
        block[2] = 16.0;
        transform_hornuss(&mut block);
        for (i, v) in block.iter().enumerate() {
            let expected = match (i % 8, i / 8) {
                (1, 0) => 19.0,
                (0..4, 0..4) => 3.0,
                _ => 4.0,
            };
            assert!(rt; *v == expected, "at {i}");
        }
    }

    #[test]
    fn only_blocks_of_the_kind(rt: HostRuntime) {
        let mut list = [0.0f32; 71];
        list[0] = 64.0;
        Vardct.inverse(0, &mut list, CELL, &mut [0.0; 511]);
        assert!(rt; (list[0] == 64.0) & (list[1] == 0.0), "scratch of 511");
        Vardct.inverse(6, &mut list, CELL, &mut [0.0; 512]);
        assert!(rt;
            (list[0] == 64.0) & (list[1] == 0.0),
            "a kind of another size"
        );
        Vardct.inverse(14, &mut list, CELL, &mut [0.0; 512]);
        assert!(rt;
            (list[0] == 64.0) & (list[1] == 0.0),
            "a kind that is not carried"
        );
        Vardct.inverse(0, &mut list, CELL, &mut [0.0; 512]);
        assert!(rt;
            (list[0] == 64.0) & (list[1] == 64.0) & (list[70] == 64.0),
            "a block"
        );
        assert!(rt; (list[8] == 0.0) & (list[17] == 0.0), "beyond the width");
    }

    #[test]
    fn only_lists_that_are_long_enough(rt: HostRuntime) {
        let mut list = [0.0f32; 70];
        list[0] = 64.0;
        Vardct.inverse(0, &mut list, CELL, &mut [0.0; 512]);
        assert!(rt; (list[0] == 64.0) & (list[1] == 0.0));
    }

    #[test]
    fn only_patches_of_the_sides(rt: HostRuntime) {
        let wide = Shape {
            width: 3,
            height: 2,
            stride: 8,
        };
        let shape = Shape { width: 2, ..wide };
        let mut list = [7.0f32; 16];
        Vardct.forward(&mut list, wide, &mut [0.0; 512]);
        assert!(rt; (list[0] == 7.0) & (list[1] == 7.0), "three across");
        Vardct.forward(&mut list, shape, &mut [0.0; 511]);
        assert!(rt; (list[0] == 7.0) & (list[1] == 7.0), "scratch of 511");
        Vardct.forward(&mut list, shape, &mut [0.0; 512]);
        assert!(rt;
            (list[0] == 7.0) & (list[1] == 0.0),
            "the first row of four sevens"
        );
        assert!(rt; (list[8] == 0.0) & (list[9] == 0.0), "the second row");
        assert!(rt; (list[2] == 7.0) & (list[10] == 7.0), "beyond the width");
    }

    #[test]
    fn means(rt: HostRuntime) {
        let mut list = [3.0f32; 72];
        list[0] = 5.0;
        Mean.inverse(0, &mut list, CELL, &mut [0.0; 511]);
        assert!(rt; (list[0] == 5.0) & (list[1] == 3.0), "scratch of 511");
        Mean.inverse(0, &mut list, CELL, &mut [0.0; 512]);
        assert!(rt;
            (list[1] == 5.0) & (list[7] == 5.0) & (list[70] == 5.0),
            "64 fives"
        );
        assert!(rt; (list[8] == 3.0) & (list[71] == 3.0), "beyond the width");
    }
}
