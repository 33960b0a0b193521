// The pattern that the box plays, and trying out changes to it.
#![tactic(auto)]

ghost use Rattle.std.specs.Prelude.{◌≡◌, slice_set};
ghost use Rattle.refusal.specs.Checks.{Judged};
ghost use Rattle.refusal.specs.declared.Refusal.TheVariants.{Memory};
ghost use Rattle.decoder.specs.Lists.{set_checks};
ghost use Rattle.memory.specs.Patterns.{pattern};

use refusal::MemoryFault;

pub mod playing;
pub mod trying;

pub use playing::Patterns;
pub use trying::Trial;

// Changes one step.
pub fn changed(patterns: &mut Patterns, place: usize, number: u8) -> Result<(), MemoryFault>
    ensures answer { Judged (set_checks (pattern patterns.old) place number) Memory result (λ _. pattern patterns.new ≡ slice_set (pattern patterns.old) place number) (λ _. pattern patterns.new ≡ pattern patterns.old) }
{
    let mut trial = patterns.try_out();
    let answer = trial.set(place, number);
    trial.keep();
    answer
}

// Tries a change of one step, and lets go of it: the answer says whether it is possible.
pub fn tried(patterns: &mut Patterns, place: usize, number: u8) -> Result<(), MemoryFault>
    ensures answer { Judged (set_checks (pattern patterns.old) place number) Memory result (λ _. Unit {0}) (λ _. Unit {0}) }
    ensures back { pattern patterns.new ≡ pattern patterns.old }
{
    let mut trial = patterns.try_out();
    trial.set(place, number)
}

#[cfg(test)]
mod tests {
    use super::*;
    use codetable::CodeTable;
    use decoder::decode;
    use queue::strip::Strip;
    use softvalues::SoftValues;
    use std::process::Abort;
    use std::test::Fail;

    // The pattern 0, 1, as the decoder finds it.
    fn loaded(rt: &impl Abort) -> Result<Patterns, Fail> {
        let mut table = CodeTable::new();
        assert!(rt; table.push(1, 0).is_ok());
        assert!(rt; table.push(1, 1).is_ok());
        let mut received = SoftValues::new();
        assert!(rt; received.push(64).is_ok());
        assert!(rt; received.push(-64).is_ok());
        let mut queue = Strip::new();
        let mut costs = [0; 515];
        let mut ahead = [0; 3];
        match decode(&table, &received, 2, &mut queue, &mut costs, &mut ahead) {
            Ok(decoded) => {
                let mut patterns = Patterns::new();
                patterns.store(decoded.list);
                Ok(patterns)
            }
            Err(_) => Err(Fail::new("no list fits")),
        }
    }

    #[test]
    fn changes(rt: HostRuntime) -> Result<(), Fail> {
        let mut patterns = loaded(&rt)?;
        assert_eq!(rt; tried(&mut patterns, 0, 5), Ok(()));
        assert_eq!(rt; patterns.step(0), Some(0));
        assert_eq!(rt; changed(&mut patterns, 0, 31), Ok(()));
        assert_eq!(rt; patterns.step(0), Some(31));
        assert_eq!(rt; changed(&mut patterns, 0, 32), Err(MemoryFault::BadCount));
        assert_eq!(rt; changed(&mut patterns, 2, 0), Err(MemoryFault::BadCount));
        assert_eq!(rt; patterns.step(0), Some(31));
        assert_eq!(rt; patterns.step(2), None);
        Ok(())
    }

    // A trial of two changes plays both, and then neither.
    #[test]
    fn both_go_back(rt: HostRuntime) -> Result<(), Fail> {
        let mut patterns = loaded(&rt)?;
        let during = {
            let mut trial = patterns.try_out();
            let _ = trial.set(0, 8);
            let _ = trial.set(1, 9);
            (trial.step(0), trial.step(1), trial.len())
        };
        assert_eq!(rt; during, (Some(8), Some(9), 2));
        assert_eq!(rt;
            (patterns.step(0), patterns.step(1), patterns.len()),
            (Some(0), Some(1), 2)
        );
        Ok(())
    }
}
