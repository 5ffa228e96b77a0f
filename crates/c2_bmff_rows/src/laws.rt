//! A law of rows.

ghost use Rattle.c2_bmff_rows.specs.Paths.{BoxesHaveRows, RowsHaveBoxes};

/// The rows on a path below boxes that stand in a file are those of the boxes on the path.
pub fn rows_on_a_path_are_of_its_boxes()
    ensures boxes { BoxesHaveRows }
    ensures rows { RowsHaveBoxes }
{}
