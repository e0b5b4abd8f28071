// How many steps a state seems to be from the goals; never only where no plan exists. Never lies above every number, where None of an Option would lie below.
#[derive(Clone, Copy, PartialEq, Eq, PartialOrd, Ord, Debug)]
pub enum Estimate {
    Steps(u16),
    Never,
}
