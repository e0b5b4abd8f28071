ghost use Rattle.std.specs.Prelude.{◌≡◌, [], MatchOption};
ghost use Rattle.std.specs.Iterator.{YieldsFirstRef, item_count};
ghost use Rattle.input_lines.specs.Lines.{First, lines};

use crate::cutting::cut;

// The first line of an input, and the input behind it.
#[tactic(auto, using(crate::proofs::Splits::first_line))]
pub fn next_line(input: &[u8]) -> Option<(&[u8], &[u8])>
    ensures { MatchOption result (input.now ≡ []) (λ p. First input.now p.0.now p.1.now) }
{
    if input.is_empty() {
        return None;
    }
    Some(cut(input, b'\n'))
}

// The lines of an input, one after another.
#[derive(Drop)]
pub struct Lines<'a>(pub &'a [u8]);

impl<'a> Iterator for Lines<'a> {
    type Item = &'a [u8];

    ghost next_gives = { YieldsFirstRef (λ s. lines s.0.now) };

    ghost remaining = { item_count (λ s. lines s.0.now) };

    fn next(&mut self) -> Option<&'a [u8]> {
        let (line, rest) = next_line(self.0)?;
        self.0 = rest;
        Some(line)
    }
}
