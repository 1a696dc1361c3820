// The worked figures, as one theorem.
#![tactic(auto)]

ghost use Rattle.figures.specs.Figures.{WorkedFigures};

// What is worked out by hand of the wire times and of a worked case holds of the definitions that the contracts speak of.
pub fn figures_hold()
    ensures figures { WorkedFigures }
{}
