// What every split agrees on. Each function stands for the theorem that is its contract.
ghost use Rattle.flow.specs.Promises.{SplitIffBalanced, ExcessBothWays, SplitPutsExcess, DividingIsSplit, AvoidingReachesFigure, CertainIffExcess, FigureIsLeast};

pub fn split_iff_balanced()
    ensures { SplitIffBalanced }
{}

pub fn excess_both_ways()
    ensures { ExcessBothWays }
{}

pub fn split_puts_excess()
    ensures { SplitPutsExcess }
{}

pub fn dividing_is_split()
    ensures { DividingIsSplit }
{}

pub fn avoiding_reaches_figure()
    ensures { AvoidingReachesFigure }
{}

pub fn certain_iff_excess()
    ensures { CertainIffExcess }
{}

pub fn figure_is_least()
    ensures { FigureIsLeast }
{}
