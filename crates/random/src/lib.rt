// Pseudo-random numbers by a linear congruential generator.
#![tactic(auto)]

ghost use Rattle.std.specs.Prelude.{◌≡◌, ℕ, ◌<◌};
ghost use Rattle.random.specs.Generators.{advanced, output, reduced};

use std::marker::Model;

const MULTIPLIER: u64 = 6364136223846793005;

const INCREMENT: u64 = 1442695040888963407;

// A linear congruential generator of 64 bits, of whose state the upper half is used. A contract sees its state.
#[derive(Drop)]
pub struct Random {
    state: u64,
}

impl Model for Random {
    ghost Value = { ℕ };

    ghost view = { λ r. r.state };
}

impl Random {
    // A generator that begins at the state `seed`.
    pub fn new(seed: u64) -> Random
        ensures state { result ≡ seed }
    {
        Random { state: seed }
    }

    // The next number of 32 bits.
    pub fn next_u32(&mut self) -> u32
        ensures state { self.new ≡ advanced self.old }
        ensures number { result ≡ output self.new }
    {
        self.state = self.state.wrapping_mul(MULTIPLIER).wrapping_add(INCREMENT);
        (self.state >> 32) as u32
    }

    // The next number of 32 bits, brought below a bound by its remainder; 0 at the bound 0.
    pub fn below(&mut self, bound: u64) -> u64
        ensures state { self.new ≡ advanced self.old }
        ensures number { result ≡ reduced (output self.new) bound }
        ensures below { 0 < bound → result < bound }
    {
        u64::from(self.next_u32()).checked_rem(bound).unwrap_or(0)
    }
}
