// A law of steps that write; nothing is computed.
ghost use Rattle.c2_copying.specs.Writing.{StaysFollow, StepsFollow};

use c2_base::Sink;

/// Steps that write one after the other have written what each of them has, as far as they came; what each leaves of the sink, all of
/// them do. A sink that took all bytes and then can't be finished has failed beyond its stated spare.
pub fn steps_follow<K: Sink>()
    ensures steps { StepsFollow K.written K.spare K.finished }
    ensures stays { StaysFollow K.written K.finished K.faults }
{}
