// For the prover: the texts of a definition are texts as a program holds them.
ghost use Rattle.std.specs.List.{AllByRecursion};
ghost use Rattle.c2_definition.specs.declared.types.NewAssertion.{NewAssertion as AnyAssertion};
ghost use Rattle.c2_new_file_spec.specs.Written.{HasTexts, IsText};

use c2_base::Text;
use c2_definition::{Definition, NewAssertion};

// One text is a text as a program holds it.
fn see_text(text: &Text)
    ensures { IsText text.now }
{
    let _text = text.as_str();
}

// The texts of a list are texts as a program holds them.
#[tactic(auto, using(crate::proofs::Seen::one_more, crate::proofs::Seen::at_end))]
fn see_list(texts: &[Text])
    ensures { AllByRecursion IsText texts.now }
{
    for text in texts {
        see_text(text);
    }
}

// The labels of new assertions are texts as a program holds them.
#[tactic(auto, using(crate::proofs::Seen::one_more, crate::proofs::Seen::at_end))]
fn see_labels(list: &[NewAssertion])
    ensures { AllByRecursion (λ (a : AnyAssertion). IsText a.label) list.now }
{
    for assertion in list {
        see_text(&assertion.label);
    }
}

/// Looks at the texts of a definition, which are texts.
pub fn see_texts(definition: &Definition)
    ensures { HasTexts definition.now }
{
    see_text(&definition.label);
    see_text(&definition.instance_id);
    see_text(&definition.generator);
    if let Some(title) = &definition.title {
        see_text(title);
    }
    see_labels(definition.assertions.as_slice());
    see_list(definition.redact.as_slice());
}
