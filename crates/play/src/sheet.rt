//! Grids that own their lists.

use crate::script::Mistake;
use grid::{Area, Grid, Shape, Solid, View, Xyb};
use std::alloc::{AllocError, Global};

/// A list with the shape of the grid that it is lent as.
#[derive(Drop)]
pub struct Sheet<T> {
    list: Vec<T>,
    shape: Shape,
}

/// Elements of a sheet.
#[derive(Clone, Copy)]
pub enum Elements {
    All,
    /// The one in column `x` and row `y`.
    At { x: usize, y: usize },
}

impl<T: Copy + Drop> Sheet<T> {
    /// A sheet of width × height elements, all `value`.
    pub fn new(
        heap: Global,
        width: usize,
        height: usize,
        value: T,
    ) -> Result<Sheet<T>, AllocError> {
        let list = vec![in heap; value; width.saturating_mul(height)]?;
        Ok(Sheet {
            list,
            shape: Shape::dense(width, height),
        })
    }

    pub fn as_slice(&self) -> &[T] {
        self.list.as_slice()
    }

    pub fn view(&self) -> View<'_, T> {
        View {
            list: self.list.as_slice(),
            shape: self.shape,
        }
    }

    // beside `view`: a `&mut` and a `&` of the same
    pub fn grid(&mut self) -> Grid<'_, T> {
        Grid {
            list: self.list.as_mut_slice(),
            shape: self.shape,
        }
    }

    /// The elements become `value`, if the sheet has them.
    pub fn set<'a>(&mut self, elements: Elements, value: T) -> Result<(), Mistake<'a>> {
        let mut grid = self.grid();
        let shape = grid.shape;
        if !shape.is_lawful(grid.list.len()) {
            return Err(Mistake::NoElement);
        }
        match elements {
            Elements::All => grid.fill_with(value),
            Elements::At { x, y } if x < shape.width && y < shape.height => {
                let area = Area {
                    x,
                    y,
                    width: 1,
                    height: 1,
                };
                grid.paint(area, &Solid { value });
            }
            Elements::At { .. } => return Err(Mistake::NoElement),
        }
        Ok(())
    }
}

/// A sheet of width × height elements for each channel, all `value`.
pub fn sheets<T: Copy + Drop>(
    heap: Global,
    width: usize,
    height: usize,
    value: T,
) -> Result<Xyb<Sheet<T>>, AllocError> {
    Ok(Xyb {
        x: Sheet::new(heap, width, height, value)?,
        y: Sheet::new(heap, width, height, value)?,
        b: Sheet::new(heap, width, height, value)?,
    })
}

/// The view of each channel.
pub fn views<T: Copy + Drop>(sheets: &Xyb<Sheet<T>>) -> Xyb<View<'_, T>> {
    Xyb {
        x: sheets.x.view(),
        y: sheets.y.view(),
        b: sheets.b.view(),
    }
}
