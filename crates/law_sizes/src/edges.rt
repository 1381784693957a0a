//! Laws of moving focus past the edge of an output: which output takes it, and that it is the current one then.
ghost use Rattle.law_sizes.specs.Edges.{FocusEnters, OutputNearest};

/// Focusing in a direction where nothing stands beside makes the output there the current one, and changes nothing else.
pub fn focus_past_an_edge_enters_the_output()
    ensures { FocusEnters }
{}

/// The output in a direction of an output is the nearest of those beyond its edge, then the one of least id; and there is
/// none where none lies beyond it.
pub fn the_output_beyond_an_edge_is_the_nearest()
    ensures { OutputNearest }
{}
