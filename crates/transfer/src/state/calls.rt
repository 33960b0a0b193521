// The calls on an open transfer. The buffer may be another one each time.
ghost use Rattle.std.specs.Prelude.{◌≡◌, ℕ, List, [], ◌∷◌, ◌++◌, length, IfOk, Some};
ghost use Rattle.std.specs.List.{slice_get};
ghost use Rattle.refusal.specs.Checks.{Judged};
ghost use Rattle.refusal.specs.declared.Refusal.TheVariants.{Transfer};
ghost use Rattle.codetable.specs.declared.word.Codeword.{Codeword};
ghost use Rattle.codetable.specs.Tables.{words};
ghost use Rattle.transfer.specs.Calls.{step_checks, close_checks, Stepped, Finished, Carries, Delivers};

use super::{ClosedTransfer, OpenTransfer};
use crate::format::{put_bits, put_end};
use codetable::CodeTable;
use refusal::TransferFault;

const MOST_STEPS: usize = 32;

const MOST_SENT_BITS: usize = 255;
// The words that close a transfer: LOAD and END.
pub(super) const CLOSING: usize = 2;

impl OpenTransfer {
    // A transfer without steps.
    pub fn new() -> OpenTransfer
        ensures carries { (buffer : List ℕ) → Carries result buffer buffer [] }
    {
        OpenTransfer { steps: 0, bits: 0 }
    }

    // Sends word k of a table. A refused step hands the transfer back, and leaves it and the buffer as they were.
    pub fn step(
        self,
        table: &CodeTable,
        k: usize,
        buffer: &mut [u8],
    ) -> Result<OpenTransfer, (OpenTransfer, TransferFault)>
        ensures answer { Judged (step_checks (words table.now) self.steps self.bits k (length buffer.old)) (λ e. Transfer e.1) result (λ o. Stepped (words table.now) k self o buffer.old buffer.new) (λ e. (e.0 ≡ self) × (buffer.new ≡ buffer.old)) }
        ensures carries { (before : List ℕ) (sent : List Codeword) (w : Codeword) → Carries self before buffer.old sent → slice_get (words table.now) k ≡ Some w → IfOk result (λ o. Carries o before buffer.new (sent ++ w ∷ [])) }
    {
        let Some(word) = table.word(k) else {
            return Err((self, TransferFault::NoWord));
        };
        let bits = self.bits + usize::from(word.len);
        if self.steps >= MOST_STEPS || bits > MOST_SENT_BITS {
            return Err((self, TransferFault::Full));
        }
        if buffer.len() < 4 * (bits + CLOSING) {
            return Err((self, TransferFault::Short));
        }
        put_bits(buffer, self.bits, word);
        Ok(OpenTransfer {
            steps: self.steps + 1,
            bits,
        })
    }

    // Ends the transfer.
    pub fn close(self, buffer: &mut [u8]) -> Result<ClosedTransfer, (OpenTransfer, TransferFault)>
        ensures answer { Judged (close_checks self.bits (length buffer.old)) (λ e. Transfer e.1) result (λ c. Finished self c buffer.old buffer.new) (λ e. (e.0 ≡ self) × (buffer.new ≡ buffer.old)) }
        ensures delivers { (before : List ℕ) (sent : List Codeword) → Carries self before buffer.old sent → IfOk result (λ c. Delivers c before buffer.new sent) }
    {
        if buffer.len() < 4 * (self.bits + CLOSING) {
            return Err((self, TransferFault::Short));
        }
        put_end(buffer, self.bits, self.steps);
        Ok(ClosedTransfer {
            steps: self.steps,
            bits: self.bits,
        })
    }
}

#[cfg(test)]
mod tests {
    use super::*;
    use std::process::Abort;
    use std::test::Fail;

    fn table(rt: &impl Abort, words: &[(usize, u32)]) -> CodeTable {
        let mut table = CodeTable::new();
        for &(len, value) in words {
            assert!(rt; table.push(len, value).is_ok());
        }
        table
    }

    fn accepted<T>(answer: Result<T, (OpenTransfer, TransferFault)>) -> Result<T, Fail> {
        answer.map_err(|_| Fail::new("refused"))
    }

    fn refused<T: Drop>(
        answer: Result<T, (OpenTransfer, TransferFault)>,
    ) -> Result<(OpenTransfer, TransferFault), Fail> {
        answer.err().ok_or_else(|| Fail::new("accepted"))
    }

    // Sends one word so many times, and says why the other is refused then.
    fn after(
        rt: &impl Abort,
        words: &[(usize, u32)],
        count: usize,
        buffer: &mut [u8],
    ) -> Result<TransferFault, Fail> {
        let table = table(rt, words);
        let mut transfer = OpenTransfer::new();
        for _ in 0..count {
            transfer = accepted(transfer.step(&table, 0, buffer))?;
        }
        let back = refused(transfer.step(&table, 1, buffer))?;
        Ok(back.1)
    }

    #[test]
    fn limits(rt: HostRuntime) -> Result<(), Fail> {
        let mut buffer = [0; 1028];
        assert_eq!(rt;
            after(&rt, &[(1, 0), (1, 1)], 32, &mut buffer)?,
            TransferFault::Full
        );
        assert_eq!(rt;
            after(&rt, &[(15, 0), (1, 1)], 17, &mut buffer)?,
            TransferFault::Full
        );
        assert_eq!(rt;
            after(&rt, &[(1, 0)], 31, &mut buffer)?,
            TransferFault::NoWord
        );
        Ok(())
    }

    // Three bits and the two closing words take 20 bytes.
    #[test]
    fn room(rt: HostRuntime) -> Result<(), Fail> {
        let table = table(&rt, &[(3, 0b010)]);
        let back = refused(OpenTransfer::new().step(&table, 0, &mut [0; 19]))?;
        assert_eq!(rt; back.1, TransferFault::Short);
        let mut buffer = [7u8; 21];
        let transfer = accepted(back.0.step(&table, 0, &mut buffer))?;
        let back = refused(transfer.close(&mut [0; 19]))?;
        assert_eq!(rt; back.1, TransferFault::Short);
        let closed = accepted(back.0.close(&mut buffer))?;
        assert_eq!(rt; (closed.steps(), closed.bits(), closed.words()), (1, 3, 5));
        let words = [
            0x80, 0, 0, 0x40, 0x80, 0, 0, 0xc0, 0x80, 0, 0, 0x40, 0xc0, 0, 0, 1, 0, 0, 0, 0, 7,
        ];
        assert_eq!(rt; buffer, words);
        Ok(())
    }

    #[test]
    fn empty(rt: HostRuntime) -> Result<(), Fail> {
        let back = refused(OpenTransfer::new().close(&mut [0; 7]))?;
        let closed = accepted(back.0.close(&mut [0; 8]))?;
        assert_eq!(rt; (closed.steps(), closed.bits(), closed.words()), (0, 0, 2));
        Ok(())
    }
}
