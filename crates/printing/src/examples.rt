// Answers and the lines that are printed for them, computed by the definitions.
ghost use Rattle.printing.specs.Examples.{LinesArePrinted};

pub fn lines_are_printed()
    ensures { LinesArePrinted }
{}
