// Tests of the console's lines, apart from them, since a crate with tests is proved twice.
#![tactic(auto)]

#[cfg(test)]
mod tests;
