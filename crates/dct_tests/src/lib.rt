//! Examples of the two-dimensional transform.

#![tactic(auto)]

use dct::DctDirection;
use dct_2d::dct_2d;
use grid::Shape;

/// The patch of `width` × `height` numbers after a transform with `room` numbers of scratch, of which there are at most 512.
pub fn transformed<const N: usize>(
    mut list: [f32; N],
    width: usize,
    height: usize,
    room: usize,
    direction: DctDirection,
) -> [f32; N] {
    let shape = Shape {
        width,
        height,
        stride: width,
    };
    let mut scratch = [0.0; 512];
    dct_2d(&mut list, shape, &mut scratch[0..room.min(512)], direction);
    list
}

#[cfg(test)]
mod tests {
    use super::*;

    #[test]
    fn four_sevens_forward(rt: HostRuntime) {
        let found = transformed([7.0; 4], 2, 2, 512, DctDirection::Forward);
        assert!(rt; found == [7.0, 0.0, 0.0, 0.0]);
    }

    #[test]
    fn a_first_number_alone_becomes_flat(rt: HostRuntime) {
        let mut list = [0.0; 64];
        list[0] = 9.0;
        let found = transformed(list, 8, 8, 512, DctDirection::Inverse);
        assert!(rt; found == [9.0; 64]);
    }

    #[test]
    fn a_side_of_three_is_left(rt: HostRuntime) {
        let list = [1.0, 2.0, 4.0];
        let found = transformed(list, 3, 1, 512, DctDirection::Forward);
        assert!(rt; found == list);
    }

    #[test]
    fn short_scratch_leaves_all(rt: HostRuntime) {
        let list = [1.0, 3.0];
        let found = transformed(list, 2, 1, 511, DctDirection::Forward);
        assert!(rt; found == list);
    }

    #[test]
    fn two_numbers_forward(rt: HostRuntime) {
        let found = transformed([1.0, 3.0], 2, 1, 512, DctDirection::Forward);
        assert!(rt; found == [2.0, -1.0]);
    }
}
