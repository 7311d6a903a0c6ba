// The places of document 01: where a position lies, in whole metres on the farm grid, known to an error or exactly.
#![tactic(auto)]

ghost use Rattle.std.specs.Prelude.{◌≡◌, true, ◌&&◌, pos, ◌+ℤ◌, leb, ◌+◌, ◌*◌, ◌<◌};
ghost use Rattle.std.specs.Int.Signed.{le_z};
ghost use Rattle.places.specs.Places.{inside_circle, outside_circle, within_by, inside_box, beyond, outside_box, surely_inside, surely_outside, on_grid, point_in_range, position_in_range, shape_in_range, shape_sound, shape_of, locate, is_inside, is_outside, side_holds};

// A point as it was reported: the true one is at most `error` metres away, and 0 stands for none reported.
#[derive(Clone, Copy, Debug, PartialEq, Eq)]
pub struct Point {
    pub x: i32,
    pub y: i32,
    pub error: u32,
}

#[derive(Clone, Copy, Debug, PartialEq, Eq)]
pub enum Position {
    Unknown,
    Known(Point),
}

#[derive(Clone, Copy, Debug, PartialEq, Eq)]
pub enum Shape {
    // circle x y q
    Circle {
        x: i32,
        y: i32,
        radius: u32,
    },
    // box a b c d
    Box {
        left: i32,
        bottom: i32,
        right: i32,
        top: i32,
    },
}

#[derive(Clone, Copy, Debug, PartialEq, Eq)]
pub enum Side {
    Inside(Shape),
    Outside(Shape),
}

// Where a position lies: an unknown one is neither inside nor outside, and of a known one its error may leave it unsure.
#[derive(Clone, Copy, Debug, PartialEq, Eq)]
pub enum Outcome {
    Inside,
    Outside,
    Unsure,
    Neither,
}

impl Point {
    // The coordinates of the grid.
    pub const FIRST: i64 = -1_000_000;

    pub const LAST: i64 = 1_000_000;

    pub const LAST_ERROR: u32 = 1000;

    // Both coordinates are on the grid, and the error is in its range.
    #[tactic(auto, unfolding(crate::specs::Places::point_in_range))]
    pub fn in_range(self) -> bool
        ensures { result ≡ point_in_range self }
    {
        both_on_grid(self.x, self.y) && self.error <= Point::LAST_ERROR
    }
}

impl Position {
    // The position is unknown or on the grid.
    #[tactic(auto, unfolding(crate::specs::Places::position_in_range))]
    pub fn in_range(self) -> bool
        ensures { result ≡ position_in_range self }
    {
        match self {
            Position::Unknown => true,
            Position::Known(point) => point.in_range(),
        }
    }
}

impl Shape {
    pub const LAST_RADIUS: u32 = 100_000;

    // Each number of the shape is in its range (else 11).
    #[tactic(auto, unfolding(crate::specs::Places::shape_in_range))]
    pub fn in_range(self) -> bool
        ensures { result ≡ shape_in_range self }
    {
        match self {
            Shape::Circle { x, y, radius } => {
                both_on_grid(x, y) && (1..=Shape::LAST_RADIUS).contains(&radius)
            }
            Shape::Box {
                left,
                bottom,
                right,
                top,
            } => both_on_grid(left, bottom) && both_on_grid(right, top),
        }
    }

    // A box's sides are in order (else 14).
    #[tactic(auto, unfolding(crate::specs::Places::shape_sound))]
    pub fn is_sound(self) -> bool
        ensures { result ≡ shape_sound self }
    {
        match self {
            Shape::Circle { .. } => true,
            Shape::Box {
                left,
                bottom,
                right,
                top,
            } => left <= right && bottom <= top,
        }
    }

    // Where a position lies. An unknown or refused position and a refused shape give neither.
    #[tactic(auto, unfolding(crate::specs::Places::locate))]
    pub fn locate(self, position: Position) -> Outcome
        ensures { result ≡ locate self position }
    {
        let Position::Known(point) = position else {
            return Outcome::Neither;
        };
        if !self.in_range() || !self.is_sound() || !point.in_range() {
            return Outcome::Neither;
        }
        if self.is_surely_inside(point) {
            return Outcome::Inside;
        }
        if self.is_surely_outside(point) {
            return Outcome::Outside;
        }
        Outcome::Unsure
    }

    // The point is within the shape, its edge included, wherever in its error it truly is.
    #[tactic(auto, unfolding(crate::specs::Places::surely_inside))]
    fn is_surely_inside(self, point: Point) -> bool
        ensures { result ≡ surely_inside self point }
    {
        match self {
            Shape::Circle { x, y, radius } => is_inside_circle(x, y, radius, point),
            Shape::Box {
                left,
                bottom,
                right,
                top,
            } => is_inside_box(left, bottom, right, top, point),
        }
    }

    // The point is not within the shape, wherever in its error it truly is.
    #[tactic(auto, unfolding(crate::specs::Places::surely_outside, crate::specs::Places::shape_in_range))]
    fn is_surely_outside(self, point: Point) -> bool
        requires { (shape_in_range self ≡ true) × (point_in_range point ≡ true) }
        ensures { result ≡ surely_outside self point }
    {
        match self {
            Shape::Circle { x, y, radius } => is_outside_circle(x, y, radius, point),
            Shape::Box {
                left,
                bottom,
                right,
                top,
            } => is_outside_box(left, bottom, right, top, point),
        }
    }
}

impl Side {
    pub fn shape(self) -> Shape
        ensures { result ≡ shape_of self }
    {
        match self {
            Side::Inside(shape) | Side::Outside(shape) => shape,
        }
    }

    // The position is surely on this side of the shape.
    #[tactic(auto, unfolding(crate::specs::Places::side_holds))]
    pub fn holds(self, position: Position) -> bool
        ensures { result ≡ side_holds self position }
    {
        match self {
            Side::Inside(shape) => shape.locate(position).is_inside(),
            Side::Outside(shape) => shape.locate(position).is_outside(),
        }
    }
}

impl Outcome {
    pub fn is_inside(self) -> bool
        ensures { result ≡ is_inside self }
    {
        matches!(self, Outcome::Inside)
    }

    pub fn is_outside(self) -> bool
        ensures { result ≡ is_outside self }
    {
        matches!(self, Outcome::Outside)
    }
}

// The error is at most the radius, and the point no more than what is left of it from the centre.
#[tactic(auto, using(crate::proofs::Signed::read_back), unfolding(crate::specs::Places::inside_circle))]
fn is_inside_circle(x: i32, y: i32, radius: u32, point: Point) -> bool
    ensures { result ≡ inside_circle x y radius point }
{
    point.error <= radius
        && near(
            point.x.abs_diff(x),
            point.y.abs_diff(y),
            radius - point.error,
        )
}

// The point is more than the radius and the error from the centre.
#[tactic(auto, using(crate::proofs::Orders::order_tests), unfolding(crate::specs::Places::outside_circle, crate::specs::Places::point_in_range))]
fn is_outside_circle(x: i32, y: i32, radius: u32, point: Point) -> bool
    requires { (radius < 100001) × (point_in_range point ≡ true) }
    ensures { result ≡ outside_circle x y radius point }
{
    !near(
        point.x.abs_diff(x),
        point.y.abs_diff(y),
        radius + point.error,
    )
}

// The point is its error or more within all four sides.
#[tactic(auto, unfolding(crate::specs::Places::inside_box))]
fn is_inside_box(left: i32, bottom: i32, right: i32, top: i32, point: Point) -> bool
    ensures { result ≡ inside_box left bottom right top point }
{
    within_by(point.error, left, right, point.x) && within_by(point.error, bottom, top, point.y)
}

// The point is more than its error from the box.
#[tactic(auto, using(crate::proofs::Orders::order_tests), unfolding(crate::specs::Places::outside_box))]
fn is_outside_box(left: i32, bottom: i32, right: i32, top: i32, point: Point) -> bool
    ensures { result ≡ outside_box left bottom right top point }
{
    !near(
        beyond(left, right, point.x),
        beyond(bottom, top, point.y),
        point.error,
    )
}

// A coordinate is so much or more within two sides.
#[tactic(auto, unfolding(crate::specs::Places::within_by))]
fn within_by(error: u32, low: i32, high: i32, z: i32) -> bool
    ensures { result ≡ within_by error low high z }
{
    is_above_by(error, low, z) && is_above_by(error, z, high)
}

// The second coordinate is so much or more above the first.
fn is_above_by(error: u32, low: i32, z: i32) -> bool
    ensures { result ≡ le_z (low +ℤ pos error) z }
{
    low as i64 + error as i64 <= z as i64
}

// How far a coordinate lies beyond two sides: 0 between them.
#[tactic(auto, unfolding(crate::specs::Places::beyond))]
fn beyond(low: i32, high: i32, z: i32) -> u32
    ensures { result ≡ beyond low high z }
{
    if z < low {
        low.abs_diff(z)
    } else if high < z {
        z.abs_diff(high)
    } else {
        0
    }
}

// Both coordinates are on the grid.
fn both_on_grid(x: i32, y: i32) -> bool
    ensures { result ≡ (on_grid x && on_grid y) }
{
    on_grid(x as i64) && on_grid(y as i64)
}

// A coordinate of the grid.
pub fn on_grid(z: i64) -> bool
    ensures { result ≡ on_grid z }
{
    (Point::FIRST..=Point::LAST).contains(&z)
}

// A point dx and dy away is at most the radius away. A sum of squares that does not fit is past the radius's.
fn near(dx: u32, dy: u32, radius: u32) -> bool
    ensures { result ≡ leb (dx * dx + dy * dy) (radius * radius) }
{
    square(dx)
        .checked_add(square(dy))
        .is_some_and(|sum| sum <= square(radius))
}

fn square(n: u32) -> u64
    ensures { result ≡ n * n }
{
    n as u64 * n as u64
}
