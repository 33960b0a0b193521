// The type of a received sequence: a value of it has at most 255 values, each on the scale.
use crate::scale::SoftValue;
use fixedvec::FixedVec;

mod calls;

const MOST_VALUES: usize = 255;

// Values are numbered from 0 as they are received.
#[derive(Clone, Copy)]
pub struct SoftValues {
    inner: FixedVec<SoftValue, MOST_VALUES>,
}
