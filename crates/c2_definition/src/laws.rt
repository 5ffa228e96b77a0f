//! Laws of definition files.

ghost use Rattle.std.specs.Prelude.{◌≡◌, ℕ, List, Result, Ok};
ghost use Rattle.c2_definition.specs.DefinitionFile.{IsDefinition, IsWellFormed};
ghost use Rattle.c2_definition.specs.declared.types.Definition.{Definition};
ghost use Rattle.c2_definition.specs.declared.types.DefinitionField.{DefinitionField};

/// Each file is one definition, or one thing of it is refused first.
pub fn each_definition_is_read_one_way()
    ensures some { (file : List ℕ) → (r : Result Definition DefinitionField)
        × IsDefinition file r }
    ensures one { (file : List ℕ) (r s : Result Definition DefinitionField)
        → IsDefinition file r → IsDefinition file s → r ≡ s }
{}

/// A definition that a file is keeps what is asked of its fields.
pub fn definitions_are_well_formed()
    ensures { (file : List ℕ) (d : Definition) → IsDefinition file (Ok d) → IsWellFormed d }
{}
