// What holds of each list of tests; nothing is computed.
ghost use Rattle.c2_build_refusals.specs.Refusals.{FirstRefusalIsLeast};

/// What a list of tests answers is the refusal of the first test that fails, and there is none where every test passes.
pub fn the_first_refusal_is_the_least()
    ensures { FirstRefusalIsLeast }
{}
