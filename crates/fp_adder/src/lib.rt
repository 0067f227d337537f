// An accurate adder of f64 (Kahan's): two floats, sum and correction, handed on by value. Each operation
// of the Rust's `FloatAdder`, in its order, with one rounding.
#![tactic(auto)]

ghost use Rattle.std.specs.Prelude.{◌≡◌};
ghost use Rattle.std.specs.Float.{binary64};
ghost use Rattle.std.specs.Float.Ieee.{of_bits};
ghost use Rattle.scope.specs.Area.{no_terms, added, value_of, closing};
ghost use Rattle.fp_adder.specs.Adders.{adder_of};

// The f64 of 4π, the area of the sphere.
const FOUR_PI: f64 = 12.566370614359172;

#[derive(Clone, Copy)]
pub struct FloatAdder {
    sum: f64,
    correction: f64,
}

impl FloatAdder {
    pub fn new() -> FloatAdder
        ensures { adder_of result ≡ no_terms }
    {
        FloatAdder {
            sum: 0.0,
            correction: 0.0,
        }
    }

    pub fn add(self, value: f64) -> FloatAdder
        ensures { adder_of result ≡ added (adder_of self) value }
    {
        let y = value - self.correction;
        let t = self.sum + y;
        FloatAdder {
            sum: t,
            correction: (t - self.sum) - y,
        }
    }

    // The area of a ring whose terms are added: what is below 0 is the rest of the sphere.
    pub fn closed(self) -> f64
        ensures { result ≡ closing (adder_of self) }
    {
        let area = f64::from(self);
        if area < 0.0 {
            return f64::from(self.add(FOUR_PI));
        }
        area
    }
}

// The value of an adder: its sum with the correction.
impl From<FloatAdder> for f64 {
    ghost from_gives = { λ adder value. value ≡ value_of (adder_of adder) };

    fn from(adder: FloatAdder) -> f64 {
        adder.sum + adder.correction
    }
}

// Worked example T10: given 1 and then 2^−53 the adder answers 1 − 2^−53, where the plain sum would be 1.
fn worked_example() -> f64
    ensures { result ≡ of_bits binary64 0x3FEFFFFFFFFFFFFF }
{
    f64::from(FloatAdder::new().add(1.0).add(1.1102230246251565e-16))
}
