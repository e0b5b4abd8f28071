ghost use Rattle.std.specs.Prelude.{◌≡◌};
ghost use Rattle.inspection.specs.Commands.{named};

use input_lines::number_of;

// The action that a line names by one to three digits.
#[tactic(auto, using(input_lines::proofs::Digits::numeral_of_lt))]
pub fn named_action(line: &[u8]) -> Option<u16>
    ensures { result ≡ named line.now }
{
    let number = number_of::<3>(line)?;
    Some(number as u16)
}
