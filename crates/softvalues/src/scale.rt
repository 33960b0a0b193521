// One soft value: a number whose sign is a bit and whose magnitude says how sure that bit is.
ghost use Rattle.std.specs.Prelude.{◌≡◌};
ghost use Rattle.refusal.specs.Checks.{Judged};
ghost use Rattle.refusal.specs.declared.Refusal.TheVariants.{Take};
ghost use Rattle.softvalues.specs.Scale.{OnScale, hard_bit_of, magnitude, scale_checks};

use refusal::TakeFault;

// A number as it is received.
pub type RawValue = i8;

// A number without its sign.
pub type Magnitude = u8;

const MOST_MAGNITUDE: RawValue = 127;

// A number on the scale; the lowest of its type is not one.
#[derive(Clone, Copy)]
pub struct SoftValue {
    pub(crate) value: RawValue,
    ghost scale: { OnScale value },
}

impl SoftValue {
    // The number as a soft value, if it is on the scale. At the top the type ends where the scale does.
    // A constructor, as of other types of this crate: `RawValue` is a name of i8, and a conversion from any i8 would tell less.
    pub fn new(value: RawValue) -> Result<SoftValue, TakeFault>
        ensures answer { Judged (scale_checks value) Take result (λ s. s.value ≡ value) (λ _. Unit {0}) }
    {
        if value < -MOST_MAGNITUDE {
            return Err(TakeFault::OffScale);
        }
        Ok(SoftValue { value })
    }

    pub fn value(&self) -> RawValue
        ensures value { result ≡ self.now.value }
    {
        self.value
    }

    // The bit that the sign stands for: true for a one.
    pub fn hard_bit(&self) -> bool
        ensures sign { result ≡ hard_bit_of self.now.value }
    {
        let value = self.value;
        value < 0
    }

    // The value without its sign. By rule the sign is tested and the number negated.
    pub fn magnitude(&self) -> Magnitude
        ensures unsigned { result ≡ magnitude self.now.value }
    {
        let value = self.value;
        if self.hard_bit() {
            -value as Magnitude
        } else {
            value as Magnitude
        }
    }
}
