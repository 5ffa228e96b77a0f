// Laws of media files: a file is opened as one thing, and is media in one way.
ghost use Rattle.std.specs.Prelude.{◌≡◌, ℕ, List};
ghost use Rattle.c2_spec.specs.Container as form;
ghost use Rattle.c2_spec.specs.Jumbf.Tree.{Tree};
ghost use Rattle.c2_spec.specs.Located.{Opening, here};
ghost use Rattle.c2_rules.specs.Binding as rules;
ghost use Rattle.c2_rules.specs.Opened.{IsManifestStore, IsOpened};
ghost use Rattle.c2_container.specs.Contained.{IsContainerOf};
ghost use Rattle.c2_container.specs.declared.types.Container.{Container};
ghost use Rattle.c2_opening.specs.Media.{IsMediaOf};

/// A file is opened as one thing at most, and so is a store that was found.
pub fn one_opening()
    ensures store { (start len : ℕ) (store : List ℕ) (a b : Opening Tree)
        → IsManifestStore start len store a → IsManifestStore start len store b → a ≡ b }
    ensures file { (file : List ℕ) (a b : Opening Tree) → IsOpened file a → IsOpened file b
        → a ≡ b }
{}

/// A file is media in one way at most, and that with the container that was read of it; a file with a store has a container.
pub fn one_media()
    ensures once { (file : List ℕ) (m n : rules.Media) → rules.IsMedia file m
        → rules.IsMedia file n → m ≡ n }
    ensures read { (file : List ℕ) (c : Container) (m : rules.Media) → IsContainerOf file c
        → rules.IsMedia file m → IsMediaOf file c m }
    ensures stored { (file : List ℕ) (start len : ℕ) (store : List ℕ)
        → form.IsLocated file (here start len store)
        → (c : form.Container) × form.IsContainer file c }
{}
