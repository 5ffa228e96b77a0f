// The law of a new store over a chain that is seen from roots.
ghost use Rattle.c2_new_content_spec.specs.Gathered.{GatheredStoreMeets, GatheredStoreReaches};

/// A new store whose ingredients are the roots of a chain that it takes over meets each rule but the verdict on its message and the one
/// on its binding, and asks the new question and then those of what is reached from the roots. What is reached in it are the new manifest
/// and that.
pub fn a_gathered_store_meets_the_rules()
    ensures meets { GatheredStoreMeets }
    ensures reaches { GatheredStoreReaches }
{}
