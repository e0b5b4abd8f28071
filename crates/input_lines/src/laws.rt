ghost use Rattle.input_lines.specs.Lines.{EndedLines, OpenLastLine, WholeLines, NothingElse};

// What lines are.
#[tactic(auto, using(crate::proofs::Splits::ended_lines, crate::proofs::Splits::open_last_line, crate::proofs::Splits::whole_lines, crate::proofs::Splits::nothing_else))]
pub fn lines_are_lawful()
    ensures ended { EndedLines }
    ensures last_open { OpenLastLine }
    ensures whole { WholeLines }
    ensures nothing_else { NothingElse }
{}
