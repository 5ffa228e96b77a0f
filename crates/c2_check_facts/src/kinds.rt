// What assertions are by their labels.
ghost use Rattle.std.specs.Prelude.{◌≡◌};
ghost use Rattle.c2_rules.specs.Rules as rules;

use c2_assertion::{Kind, kind};

/// What an assertion is by its label.
#[tactic(auto, unfolding(c2_rules::specs::Rules::label_kind))]
pub fn label_kind(name: &str) -> Kind
    ensures { result ≡ rules.label_kind name.now }
{
    kind(name)
}

/// Whether it is a binding to the media by a hash, of a kind that is known or not.
pub fn is_hash(what: Kind) -> bool
    ensures { result ≡ rules.is_hash what }
{
    match what {
        Kind::DataHash => true,
        Kind::BmffHash => true,
        Kind::OtherHash => true,
        _ => false,
    }
}
