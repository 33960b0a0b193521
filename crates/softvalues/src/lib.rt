// The received sequence: soft values in order, each on the scale.
#![tactic(auto)]

pub mod received;
pub mod scale;

pub use received::SoftValues;
pub use scale::{Magnitude, RawValue, SoftValue};
