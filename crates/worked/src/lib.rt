// Worked examples, as theorems: small tables with their best lists, their free distances and their refusals.
#![tactic(auto)]

ghost use Rattle.std.specs.Prelude.{◌≡◌};
ghost use Rattle.worked.specs.Lines.{WorkedLines, case_count};

// The number of examples.
pub fn worked_lines() -> usize
    ensures lines { WorkedLines }
    ensures count { result ≡ case_count }
{
    13
}
