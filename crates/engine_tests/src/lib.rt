// Tests of the plan call, apart from the engine, since a crate with tests is proved twice.
#![tactic(auto)]

#[cfg(test)]
mod lent;
#[cfg(test)]
mod long_lists;
#[cfg(test)]
mod refusals;
#[cfg(test)]
mod small_yards;
#[cfg(test)]
mod yards;
