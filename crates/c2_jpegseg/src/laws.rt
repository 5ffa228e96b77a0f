// A law of the packets that are written.
ghost use Rattle.c2_jpegseg.specs.Laws.{PacketsHoldTheStore};

/// The packets of a store that is written are a run with this store, wherever they stand among segments that begin none and,
/// behind them, don't have their number.
pub fn packets_hold_the_store()
    ensures { PacketsHoldTheStore }
{}
