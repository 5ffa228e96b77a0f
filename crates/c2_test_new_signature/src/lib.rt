//! Worked messages: tests of the public calls of `c2_new_signature`, which is proved once without them.
#![tactic(auto)]

#[cfg(test)]
mod digits;
#[cfg(test)]
mod messages;
