// Distances on the map, in whole metres.
ghost use Rattle.std.specs.Prelude.{◌≡◌, ◌≤◌, ◌+◌, ◌*◌, IsTrue, nat_lt};
ghost use Rattle.adm_types.specs.Limits.{is_on_map};
ghost use Rattle.adm_rank.specs.Distance.{IsDistance, distance_of, squares_between, gap};

use adm_types::Point;

/// The square of the difference of two coordinates.
fn square_of_gap(a: u32, b: u32) -> u64
    requires a { a ≤ 1500000 }
    requires b { b ≤ 1500000 }
    ensures value { result ≡ gap a b * gap a b }
    ensures upper { result ≤ 2250000000000 }
{
    let apart = u64::from(a.abs_diff(b));
    apart * apart
}

/// The sum of the squares of the two differences, in square metres.
fn squares_between(a: Point, b: Point) -> u64
    requires a { IsTrue (is_on_map a) }
    requires b { IsTrue (is_on_map b) }
    ensures value { result ≡ squares_between a b }
    ensures upper { result ≤ 4500000000000 }
{
    square_of_gap(a.east, b.east) + square_of_gap(a.north, b.north)
}

/// The distance of two points of the map, in whole metres rounded down. It takes no memory.
pub fn distance(a: Point, b: Point) -> u32
    requires a { IsTrue (is_on_map a) }
    requires b { IsTrue (is_on_map b) }
    ensures value { result ≡ distance_of a b }
    ensures greatest { IsDistance a b result }
    ensures upper { result ≤ 2121320 }
{
    squares_between(a, b).isqrt() as u32
}

/// Whether two points of the map are less than so many metres apart. It compares squares, and takes
/// no root and no memory.
pub fn is_nearer(a: Point, b: Point, metres: u32) -> bool
    requires a { IsTrue (is_on_map a) }
    requires b { IsTrue (is_on_map b) }
    ensures { result ≡ nat_lt (distance_of a b) metres }
{
    let metres = u64::from(metres);
    squares_between(a, b) < metres * metres
}
