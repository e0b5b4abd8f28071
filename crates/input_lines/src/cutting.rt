ghost use Rattle.std.specs.Prelude.{◌≡◌, ◌==◌, position};
ghost use Rattle.input_lines.specs.Cuts.{before, behind};

// Where the first `byte` stands.
fn place(bytes: &[u8], byte: u8) -> Option<usize>
    ensures { result ≡ position (λ b. b == byte) bytes.now }
{
    bytes.iter().position(|b| *b == byte)
}

// The bytes before the first `byte`, and those behind it. Where there is none, all and nothing.
#[tactic(auto, using(crate::proofs::Cuts::before_place, crate::proofs::Cuts::behind_place, crate::proofs::Cuts::before_absent, crate::proofs::Cuts::behind_absent))]
pub fn cut(bytes: &[u8], byte: u8) -> (&[u8], &[u8])
    ensures first { result.0.now ≡ before byte bytes.now }
    ensures second { result.1.now ≡ behind byte bytes.now }
{
    match place(bytes, byte) {
        Some(i) => (&bytes[..i], &bytes[i + 1..]),
        None => (bytes, &[]),
    }
}
