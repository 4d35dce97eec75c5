//! A matrix for each generator.
ghost use Rattle.std.specs.Prelude.{◌≡◌, ◌<◌, ◌≤◌, ◌+◌, ◌-◌, length, slice_get, Some};
ghost use Rattle.fpl_matrices.specs.Matrices.{IsAssignment};

use crate::matrix::{Matrix, Shape};
use sqlite_items::Items;
use std::marker::Model;

/// A shape, and a matrix of it for each generator.
#[derive(Drop)]
pub struct Assignment {
    pub(crate) shape: Shape,
    pub(crate) matrices: Items<Matrix>,
}

impl Model for Assignment {
    ghost use Rattle.fpl_matrices.specs.Matrices.{Assigned};

    ghost Value = { Assigned };

    ghost view = { λ a. record { even = a.shape.even; odd = a.shape.odd; matrices = a.matrices } };
}

impl Assignment {
    pub fn shape(&self) -> Shape
        ensures even { result.even ≡ self.now.even }
        ensures odd { result.odd ≡ self.now.odd }
    {
        self.shape
    }

    /// The matrix of generator `g`, which counts from 1.
    pub fn matrix(&self, g: u32) -> &Matrix
        requires { (1 ≤ g) × (g ≤ length self.now.matrices) }
        ensures { slice_get self.now.matrices (g - 1) ≡ Some result.now }
    {
        &self.matrices.as_slice()[g as usize - 1]
    }
}
