//! Laws of fills.

ghost use Rattle.c2_pad.specs.Fill.{FillsAreExact, TwoOnlyWhereNeeded};

/// Each fill costs what is needed, and the needs without one are those below the shortest entry's length and above the limit.
pub fn fills_are_exact()
    ensures { FillsAreExact }
{}

/// The second entry is there only where no number of zero bytes in the first costs what is needed.
pub fn two_entries_only_where_one_is_not_enough()
    ensures { TwoOnlyWhereNeeded }
{}
