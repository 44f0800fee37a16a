//! What a move costs: the trait `Measure`, the two measures `Squared` and `Plain`, and their names.
#![tactic(auto)]

ghost use Rattle.std.specs.Prelude.{◌≡◌, ◌+◌, ◌*◌, ◌^◌, ◌<◌, pos, ◌-ℤ◌};
ghost use Rattle.measure.specs.Costs.{Fair, InRange, Price, cost_of, in_range, rise_of, step_of};
ghost use Rattle.measure.specs.Measures.{squared, plain};
ghost use Rattle.measure.specs.Steps.{squared_fair, plain_fair};
ghost use Rattle.measure.specs.declared.TheConstants.{LAST_PLACE, MOST_WEIGHT};

mod name;

pub use name::{MeasureName, UnknownMeasure};

/// The greatest place, and the greatest wanted place.
pub const LAST_PLACE: u32 = 65_535;

/// The greatest weight.
pub const MOST_WEIGHT: u32 = 1_000;

/// Whether a wanted place, a weight and a place are within the ranges.
fn is_in_range(wanted: u32, weight: u32, place: u32) -> bool
    ensures { result ≡ in_range wanted weight place }
{
    wanted <= LAST_PLACE && (1..=MOST_WEIGHT).contains(&weight) && place <= LAST_PLACE
}

/// A place for a cell of a weight that is wanted at another: what a price is asked of, within the
/// ranges.
#[derive(Clone, Copy, PartialEq, Eq, Debug)]
pub struct Move {
    pub wanted: u16,
    pub weight: u16,
    pub place: u16,
    ghost in_range: { InRange wanted weight place },
}

/// A step to the right, to the place behind `from`: what a rise is asked of, within the ranges.
#[derive(Clone, Copy, PartialEq, Eq, Debug)]
pub struct Step {
    pub wanted: u16,
    pub weight: u16,
    pub from: u16,
    ghost in_range: { InRange wanted weight (from + 1) },
}

/// A measure gives one whole number, the cost, for each wanted place, weight and place.
///
/// A supplier states two formulas, within the ranges alone, and shows three laws of the price:
/// it is 0 at the wanted place, the rise from one place to the next never falls, and it is at
/// most 2^42.
pub trait Measure {
    ghost price: { Self → Price };

    /// What a move costs.
    fn price_at(&self, at: Move) -> u64
        ensures { result ≡ price self.now at.wanted at.weight at.place };

    /// What a step costs: the price behind it less the price before it.
    fn step_at(&self, at: Step) -> i64
        ensures { result ≡ step_of (price self.now) at.wanted at.weight at.from };

    /// The cost of a place; 0 outside the ranges.
    fn cost(&self, wanted: u32, weight: u32, place: u32) -> u64
        ensures value { result ≡ cost_of (price self.now) wanted weight place }
        ensures limits { (LAST_PLACE ≡ 65535) × (MOST_WEIGHT ≡ 1000) }
    {
        if is_in_range(wanted, weight, place) {
            self.price_at(Move {
                wanted: wanted as u16,
                weight: weight as u16,
                place: place as u16,
            })
        } else {
            0
        }
    }

    /// The cost at the next place less the cost at this one; 0 outside the ranges and at the last
    /// place.
    fn rise(&self, wanted: u32, weight: u32, place: u32) -> i64
        ensures value { result ≡ rise_of (price self.now) wanted weight place }
        ensures limits { (LAST_PLACE ≡ 65535) × (MOST_WEIGHT ≡ 1000) }
    {
        if place < LAST_PLACE && is_in_range(wanted, weight, place + 1) {
            self.step_at(Step {
                wanted: wanted as u16,
                weight: weight as u16,
                from: place as u16,
            })
        } else {
            0
        }
    }

    ghost fair: { (m : Self) → Fair (price m) };
}

/// The product of two of a cell's numbers, which is below 2^32.
fn product(a: u16, b: u16) -> u64
    ensures value { result ≡ a * b }
    ensures bound { result < 2 ^ 32 }
{
    u64::from(a) * u64::from(b)
}

/// The first of two numbers less the second, which may be the greater one.
fn difference(a: u64, b: u64) -> i64
    requires a_small { a < 2 ^ 63 }
    requires b_small { b < 2 ^ 63 }
    ensures { result ≡ pos a -ℤ pos b }
{
    a as i64 - b as i64
}

/// The measure that costs the weight times the square of the distance.
#[derive(Clone, Copy)]
pub struct Squared;

impl Measure for Squared {
    ghost price = { λ _. squared };

    ghost fair = { λ m. squared_fair };

    fn price_at(&self, at: Move) -> u64
        ensures { result ≡ squared at.wanted at.weight at.place }
    {
        let distance = u64::from(at.place.abs_diff(at.wanted));
        u64::from(at.weight) * (distance * distance)
    }

    #[tactic(auto, using(crate::specs::Steps::squared_step_is))]
    fn step_at(&self, at: Step) -> i64
        ensures { result ≡ step_of squared at.wanted at.weight at.from }
    {
        let here = product(at.weight, at.from);
        let home = product(at.weight, at.wanted);
        difference(2 * here + u64::from(at.weight), 2 * home)
    }
}

/// The measure that costs the weight times the distance.
#[derive(Clone, Copy)]
pub struct Plain;

impl Measure for Plain {
    ghost price = { λ _. plain };

    ghost fair = { λ m. plain_fair };

    fn price_at(&self, at: Move) -> u64
        ensures { result ≡ plain at.wanted at.weight at.place }
    {
        u64::from(at.weight) * u64::from(at.place.abs_diff(at.wanted))
    }

    fn step_at(&self, at: Step) -> i64
        ensures { result ≡ step_of plain at.wanted at.weight at.from }
    {
        let weight = i64::from(at.weight);
        if at.from < at.wanted { -weight } else { weight }
    }
}
