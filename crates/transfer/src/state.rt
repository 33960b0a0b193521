// A transfer is open while it takes steps, and closed once its last words are written.
// Both are plain numbers; the buffer is lent at each call.
ghost use Rattle.std.specs.Prelude.{◌≤◌};
ghost use Rattle.transfer.specs.Transfers.{most_steps, most_sent_bits};

mod calls;
mod closed;

#[derive(Drop, Debug)]
pub struct OpenTransfer {
    steps: usize,
    bits: usize,
    ghost few: { steps ≤ most_steps },
    ghost brief: { bits ≤ most_sent_bits },
}

#[derive(Drop, Debug)]
pub struct ClosedTransfer {
    steps: usize,
    bits: usize,
    ghost brief: { bits ≤ most_sent_bits },
}
