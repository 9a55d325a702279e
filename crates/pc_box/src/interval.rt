//! Intervals.

ghost use Rattle.std.specs.Prelude.{◌≡◌, ◌≢◌, ◌≤ℤ◌, pos};
ghost use Rattle.std.specs.Int.{int_div_euclid};
ghost use Rattle.pc_rows.specs.Linear.{InRange};
ghost use Rattle.pc_box.specs.Intervals.{free, only_zero, greater, hull_least, hull_greatest, hull, steady_least, steady_greatest, steady, least_within, greatest_within, is_within, is_hollow_between, is_hollow, raised, lowered, cut};

use pc_rows::Number;

/// The integers from a least to a greatest one, both included. An end that is absent bounds nothing.
#[derive(Clone, Copy, Debug, PartialEq, Eq)]
pub struct Interval {
    pub least: Option<Number>,
    pub greatest: Option<Number>,
}

impl Interval {
    /// All integers.
    pub(crate) fn free() -> Interval
        ensures { result ≡ free }
    {
        Interval {
            least: None,
            greatest: None,
        }
    }

    /// 0 alone.
    pub(crate) fn only_zero() -> Interval
        ensures { result ≡ only_zero }
    {
        Interval {
            least: Some(Number::new(0)),
            greatest: Some(Number::new(0)),
        }
    }

    /// The hull of the two.
    pub(crate) fn hull(self, other: Interval) -> Interval
        ensures { result ≡ hull self other }
    {
        Interval {
            least: hull_least(self.least, other.least),
            greatest: hull_greatest(self.greatest, other.greatest),
        }
    }

    /// The hull in which an end that moved is absent.
    pub(crate) fn steady(self, newer: Interval) -> Interval
        ensures { result ≡ steady self newer }
    {
        Interval {
            least: steady_least(self.least, newer.least),
            greatest: steady_greatest(self.greatest, newer.greatest),
        }
    }

    /// Whether it lies within `other`.
    pub(crate) fn is_within(self, other: Interval) -> bool
        ensures { result ≡ is_within self other }
    {
        least_within(self.least, other.least) && greatest_within(self.greatest, other.greatest)
    }

    /// Whether its least integer exceeds its greatest.
    pub(crate) fn is_hollow(self) -> bool
        ensures { result ≡ is_hollow self }
    {
        match (self.least, self.greatest) {
            (Some(least), Some(greatest)) => greatest.is_below(least),
            _ => false,
        }
    }

    /// The integers `x` of the interval with `a * x + c` of at least 0.
    pub(crate) fn cut(self, a: i128, c: i128) -> Interval
        requires other { a ≢ pos 0 }
        requires factor { InRange a }
        requires constant { InRange c }
        ensures { result ≡ cut a c self }
    {
        if 0 < a {
            let least = raised(self.least, Number::new(-quotient(c, a)));
            Interval {
                least: Some(least),
                greatest: self.greatest,
            }
        } else {
            let greatest = lowered(self.greatest, Number::new(quotient(c, -a)));
            Interval {
                least: self.least,
                greatest: Some(greatest),
            }
        }
    }
}

/// The quotient by a positive number, rounded down.
fn quotient(c: i128, a: i128) -> i128
    requires positive { pos 1 ≤ℤ a }
    requires range { InRange c }
    ensures value { result ≡ int_div_euclid c a }
    ensures range { InRange result }
{
    c.div_euclid(a)
}

fn hull_least(a: Option<Number>, b: Option<Number>) -> Option<Number>
    ensures { result ≡ hull_least a b }
{
    match (a, b) {
        (Some(a), Some(b)) => Some(a.min(b)),
        _ => None,
    }
}

fn hull_greatest(a: Option<Number>, b: Option<Number>) -> Option<Number>
    ensures { result ≡ hull_greatest a b }
{
    match (a, b) {
        (Some(a), Some(b)) => Some(greater(a, b)),
        _ => None,
    }
}

/// The greater of the two.
fn greater(a: Number, b: Number) -> Number
    ensures { result ≡ greater a b }
{
    if a.is_below(b) { b } else { a }
}

/// The old end, where the newer one is not below it.
fn steady_least(old: Option<Number>, newer: Option<Number>) -> Option<Number>
    ensures { result ≡ steady_least old newer }
{
    match (old, newer) {
        (Some(m), Some(n)) => if n.is_below(m) { None } else { Some(m) },
        _ => None,
    }
}

/// The old end, where the newer one is not above it.
fn steady_greatest(old: Option<Number>, newer: Option<Number>) -> Option<Number>
    ensures { result ≡ steady_greatest old newer }
{
    match (old, newer) {
        (Some(m), Some(n)) => if m.is_below(n) { None } else { Some(m) },
        _ => None,
    }
}

/// Whether a least end is not below another.
fn least_within(end: Option<Number>, other: Option<Number>) -> bool
    ensures { result ≡ least_within end other }
{
    match (end, other) {
        (_, None) => true,
        (None, Some(_)) => false,
        (Some(n), Some(m)) => m.is_at_most(n),
    }
}

/// Whether a greatest end is not above another.
fn greatest_within(end: Option<Number>, other: Option<Number>) -> bool
    ensures { result ≡ greatest_within end other }
{
    match (end, other) {
        (_, None) => true,
        (None, Some(_)) => false,
        (Some(n), Some(m)) => n.is_at_most(m),
    }
}

/// A least end that is at least `n`.
pub(crate) fn raised(end: Option<Number>, n: Number) -> Number
    ensures { result ≡ raised end n }
{
    match end {
        Some(m) => greater(m, n),
        None => n,
    }
}

/// A greatest end that is at most `n`.
pub(crate) fn lowered(end: Option<Number>, n: Number) -> Number
    ensures { result ≡ lowered end n }
{
    match end {
        Some(m) => m.min(n),
        None => n,
    }
}
