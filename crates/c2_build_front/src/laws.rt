// What holds of the errors of a build in front of a BMFF file; nothing is computed.
ghost use Rattle.c2_build_front.specs.Answers.{ErrorsAreOfRefusals};
ghost use Rattle.c2_build_front.specs.Errors.{ErrorsAreNoFaults, ErrorsTellRefusals};

/// Each refusal of a build in front of a BMFF file has an error of its own, which says something of the inputs; and no other error of such a
/// build does.
pub fn each_front_refusal_has_its_error()
    ensures tell { ErrorsTellRefusals }
    ensures no_faults { ErrorsAreNoFaults }
    ensures only { ErrorsAreOfRefusals }
{}
