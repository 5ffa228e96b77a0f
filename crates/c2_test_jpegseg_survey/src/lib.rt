//! What a survey of worked files answers, and how often it reads them.
#![tactic(auto)]

#[cfg(test)]
mod surveys;
