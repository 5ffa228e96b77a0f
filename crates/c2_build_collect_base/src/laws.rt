// What holds of the errors of a build that collects; nothing is computed.
ghost use Rattle.c2_build_collect_base.specs.Errors.{ErrorsAreNoFaults, ErrorsTellRefusals};

/// Each refusal of a build that collects has an error of its own, which says something of the inputs.
pub fn each_collect_refusal_has_its_error()
    ensures tell { ErrorsTellRefusals }
    ensures no_faults { ErrorsAreNoFaults }
{}
