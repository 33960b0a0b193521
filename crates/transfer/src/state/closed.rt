// The questions to a closed transfer.
ghost use Rattle.std.specs.Prelude.{◌≡◌};
ghost use Rattle.transfer.specs.Calls.{word_count};

use super::ClosedTransfer;
use super::calls::CLOSING;

impl ClosedTransfer {
    // How many steps were sent.
    pub fn steps(&self) -> usize
        ensures value { result ≡ self.now.steps }
    {
        self.steps
    }

    // How many bits their words have.
    pub fn bits(&self) -> usize
        ensures value { result ≡ self.now.bits }
    {
        self.bits
    }

    // How many file words were written.
    pub fn words(&self) -> usize
        ensures value { result ≡ word_count self.now }
    {
        CLOSING + self.bits
    }
}
