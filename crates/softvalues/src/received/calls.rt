// The calls on a received sequence.
ghost use Rattle.std.specs.Prelude.{◌≡◌, [], ◌∷◌, ◌++◌, length};
ghost use Rattle.std.specs.List.{slice_get};
ghost use Rattle.std.specs.Option.{option_map};
ghost use Rattle.refusal.specs.Checks.{Judged};
ghost use Rattle.refusal.specs.declared.Refusal.TheVariants.{Take};
ghost use Rattle.softvalues.specs.Received.{values, value_checks};

use super::SoftValues;
use crate::scale::{RawValue, SoftValue};
use fixedvec::FixedVec;
use refusal::TakeFault;

impl SoftValues {
    // A sequence without values.
    pub fn new() -> SoftValues
        ensures empty { values result ≡ [] }
    {
        SoftValues {
            inner: FixedVec::new(SoftValue { value: 0 }),
        }
    }

    // Adds a value behind the others.
    pub fn push(&mut self, value: RawValue) -> Result<(), TakeFault>
        ensures answer { Judged (value_checks (values self.old) value) Take result (λ _. values self.new ≡ values self.old ++ value ∷ []) (λ _. self.new ≡ self.old) }
    {
        let soft = SoftValue::new(value)?;
        self.inner.push(soft).map_err(|_| TakeFault::Full)
    }

    // Removes every value.
    pub fn clear(&mut self)
        ensures empty { values self.new ≡ [] }
    {
        self.inner.truncate(0);
    }

    // How many values there are.
    pub fn len(&self) -> usize
        ensures count { result ≡ length (values self.now) }
    {
        self.inner.len()
    }

    // Value i, or none from the length on.
    pub fn get(&self, i: usize) -> Option<SoftValue>
        ensures found { option_map (λ s. s.value) result ≡ slice_get (values self.now) i }
    {
        self.inner.get(i)
    }
}

#[cfg(test)]
mod tests {
    use super::*;
    use std::test::Fail;

    #[test]
    fn scale(rt: HostRuntime) {
        let mut received = SoftValues::new();
        assert_eq!(rt; received.push(-127), Ok(()));
        assert_eq!(rt; received.push(127), Ok(()));
        assert_eq!(rt; received.push(-128), Err(TakeFault::OffScale));
        assert_eq!(rt; received.len(), 2);
    }

    // Off the scale comes before full.
    #[test]
    fn room(rt: HostRuntime) {
        let mut received = SoftValues::new();
        for _ in 0..255 {
            assert_eq!(rt; received.push(-5), Ok(()));
        }
        assert_eq!(rt; received.push(0), Err(TakeFault::Full));
        assert_eq!(rt; received.push(-128), Err(TakeFault::OffScale));
        assert_eq!(rt; received.len(), 255);
        received.clear();
        assert_eq!(rt; received.len(), 0);
        assert!(rt; received.get(0).is_none());
        assert_eq!(rt; received.push(0), Ok(()));
    }

    #[test]
    fn bits_and_magnitudes(rt: HostRuntime) -> Result<(), Fail> {
        let mut received = SoftValues::new();
        for (i, (value, bit, magnitude)) in [
            (-127, true, 127),
            (-1, true, 1),
            (0, false, 0),
            (1, false, 1),
            (127, false, 127),
        ]
        .into_iter()
        .enumerate()
        {
            assert_eq!(rt; received.push(value), Ok(()));
            let Some(soft) = received.get(i) else {
                return Err(Fail::new("a value that was added is missing"));
            };
            assert_eq!(rt; soft.value(), value);
            assert_eq!(rt; soft.hard_bit(), bit);
            assert_eq!(rt; soft.magnitude(), magnitude);
        }
        Ok(())
    }
}
