// Tests of the open lists and their heap, apart from them, since a crate with tests is proved twice.
#![tactic(auto)]

#[cfg(test)]
mod tests;
