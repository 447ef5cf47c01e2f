// The six scales and offsets of a header as one record of doubles, and the coordinates and bounds that they give.
#![tactic(auto)]

pub mod doubles;

ghost use Rattle.std.specs.Prelude.{◌≡◌};
ghost use Rattle.scaling.specs.Scaling.{double_at, scaling_of, good_scale, good_offset, good_scaling, coordinates_of, bounds_of};

use crate::doubles::{bits_of, coordinate};

fn double_at(s: &[u8], at: usize) -> f64
    ensures { result ≡ double_at s.now at }
{
    doubles::double_of(fields::numbers::number_at(s, at, 8))
}

// 2^-40
const LOWEST_SCALE: f64 = 9.094947017729282379150390625e-13;
// 2^20
const HIGHEST_SCALE: f64 = 1048576.0;
// -2^40
const LOWEST_OFFSET: f64 = -1099511627776.0;
// 2^40
const HIGHEST_OFFSET: f64 = 1099511627776.0;

// (No one function of two ends for this and `good_offset`: each is named as its definition, and is one line.)
fn good_scale(x: f64) -> bool
    ensures { result ≡ good_scale x }
{
    (LOWEST_SCALE <= x) & (x <= HIGHEST_SCALE)
}

fn good_offset(x: f64) -> bool
    ensures { result ≡ good_offset x }
{
    (LOWEST_OFFSET <= x) & (x <= HIGHEST_OFFSET)
}

// The scales and offsets of a header.
#[derive(Clone, Copy, Debug, PartialEq)]
pub struct Scaling {
    pub x_scale: f64,
    pub y_scale: f64,
    pub z_scale: f64,
    pub x_offset: f64,
    pub y_offset: f64,
    pub z_offset: f64,
}

// The coordinates of a point, in the file's unit. (The stored values are `points::raw::Stored`.)
#[derive(Clone, Copy, Debug, PartialEq)]
pub struct Coordinates {
    pub x: f64,
    pub y: f64,
    pub z: f64,
}

// The stored values that the bounds are the coordinates of, in the header's order.
#[derive(Clone, Copy, Debug, PartialEq, Eq)]
pub struct Extremes {
    pub max_x: i32,
    pub min_x: i32,
    pub max_y: i32,
    pub min_y: i32,
    pub max_z: i32,
    pub min_z: i32,
}

// The bits of the bounds, in the header's order. No `Extremes<T>` with the struct above: each type has one use, and the
// two names say which of a stored value and a coordinate's bits is meant.
#[derive(Clone, Copy, Debug, Default, PartialEq, Eq)]
pub struct Bounds {
    pub max_x: u64,
    pub min_x: u64,
    pub max_y: u64,
    pub min_y: u64,
    pub max_z: u64,
    pub min_z: u64,
}

impl Scaling {
    // The record in a header; bytes past the end count as 0.
    pub fn read(header: &[u8]) -> Scaling
        ensures { result ≡ scaling_of header.now }
    {
        Scaling {
            x_scale: double_at(header, 131),
            y_scale: double_at(header, 139),
            z_scale: double_at(header, 147),
            x_offset: double_at(header, 155),
            y_offset: double_at(header, 163),
            z_offset: double_at(header, 171),
        }
    }

    // Whether all six are in their ranges: number 10 is given where they are not. A NaN is in none.
    pub fn is_good(self) -> bool
        ensures { result ≡ good_scaling self }
    {
        good_scale(self.x_scale)
            & good_scale(self.y_scale)
            & good_scale(self.z_scale)
            & good_offset(self.x_offset)
            & good_offset(self.y_offset)
            & good_offset(self.z_offset)
    }

    // The coordinates of a point's three stored values.
    pub fn coordinates(self, x: i32, y: i32, z: i32) -> Coordinates
        ensures { result ≡ coordinates_of self x y z }
    {
        Coordinates {
            x: coordinate(x, self.x_scale, self.x_offset),
            y: coordinate(y, self.y_scale, self.y_offset),
            z: coordinate(z, self.z_scale, self.z_offset),
        }
    }

    // The bounds by their bits: the coordinates of the largest stored values, and of the smallest.
    pub fn bounds_of(self, e: Extremes) -> Bounds
        ensures { result ≡ bounds_of self e }
    {
        let max = self.coordinates(e.max_x, e.max_y, e.max_z);
        let min = self.coordinates(e.min_x, e.min_y, e.min_z);
        Bounds {
            max_x: bits_of(max.x),
            min_x: bits_of(min.x),
            max_y: bits_of(max.y),
            min_y: bits_of(min.y),
            max_z: bits_of(max.z),
            min_z: bits_of(min.z),
        }
    }
}
