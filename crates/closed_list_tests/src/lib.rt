// Tests of the closed lists, apart from them, since a crate with tests is proved twice.
#![tactic(auto)]

#[cfg(test)]
mod tests;
