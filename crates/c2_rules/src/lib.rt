//! What a file comes to as a store of manifests, what is read of its manifests, the check list of rules over them, and what
//! judges are asked: definitions, apart from the code that is proved to meet them.
//!
//! They stand in `specs/`, above the formats of `c2_spec`. Here are the plain types that they answer.
#![tactic(auto)]

mod answer;
mod code;
mod laws;
mod parsed;

pub use answer::{Answer, Failing, Summary};
pub use code::Code;
pub use laws::{
    a_binding_is_one, a_binding_names_one_digest, a_question_where_the_claim_rules_hold,
    an_active_manifest_has_a_binding, first_failing_is_least, rules_see_no_more,
    tests_decide_chains,
};
pub use parsed::Parsed;
