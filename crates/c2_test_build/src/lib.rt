//! Tests of `plan` and `embed`, and of `plan_collect` and `embed_collect`, over files in memory: worked builds, what is refused first, and each fault of a source and of the
//! sink in turn.
#![tactic(auto)]

#[cfg(test)]
mod builds;
#[cfg(test)]
mod collected;
#[cfg(test)]
mod faults;
#[cfg(test)]
mod inputs;
#[cfg(test)]
mod opened;
#[cfg(test)]
mod refusals;
