// The figures reckoned by hand, as one theorem about the definitions.
#![tactic(auto)]

ghost use Rattle.figures.specs.Figures.{WorkedFigures};

// Carries the theorem: the definitions give every worked figure.
pub fn worked_figures()
    ensures definitions_give_the_worked_figures { WorkedFigures }
{}
