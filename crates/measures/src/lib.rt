// Measures: how the figures along a route make its value, and which of two values is better.
#![tactic(auto)]

ghost use Rattle.std.specs.Prelude.{◌≡◌};
ghost use Rattle.definitions.specs.Measures.{Scale, Laws, delay, width};
ghost use Rattle.definitions.proofs.Scales.{delay_laws, width_laws};

// A rule for the value of a route. A value is a 64-bit number, a figure a 32-bit one.
pub trait Measure {
    // The value of the empty route.
    const START: u64;

    // What the measure means: its starting value, its extension and its comparison.
    ghost scale: { Scale };

    // START under a contract: generic code learns nothing of a trait's constant.
    fn starting() -> u64
        ensures { result ≡ scale.start };

    // The value of a route whose first link has this figure and whose rest has this value.
    fn extend(value: u64, figure: u32) -> u64
        ensures { result ≡ scale.extend value figure };

    // Is `a` no worse than `b`?
    fn no_worse(a: u64, b: u64) -> bool
        ensures { result ≡ scale.no_worse a b };

    // The five laws that every search rests on.
    ghost lawful: { Laws scale };
}

// Delay: figures add up, stopping at the largest value, and smaller is better.
pub struct Delay;

impl Measure for Delay {
    const START: u64 = 0;

    ghost scale = { delay };

    ghost lawful = { delay_laws };

    fn starting() -> u64 {
        Self::START
    }

    fn extend(value: u64, figure: u32) -> u64 {
        value.saturating_add(u64::from(figure))
    }

    fn no_worse(a: u64, b: u64) -> bool {
        a <= b
    }
}

// Width: the smallest figure counts, and larger is better. A width of 0 is a value like any other.
pub struct Width;

impl Measure for Width {
    const START: u64 = 4_294_967_295;

    ghost scale = { width };

    ghost lawful = { width_laws };

    fn starting() -> u64 {
        Self::START
    }

    fn extend(value: u64, figure: u32) -> u64 {
        u64::from(figure).min(value)
    }

    fn no_worse(a: u64, b: u64) -> bool {
        b <= a
    }
}
