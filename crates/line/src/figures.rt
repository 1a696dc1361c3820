// The worked figures of the wire times, as one theorem.
ghost use Rattle.line.specs.Figures.{LineFigures};

// What is worked out by hand holds of every line that is built.
pub fn figures_hold()
    ensures figures { LineFigures }
{}
