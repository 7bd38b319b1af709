// Statements about every C-like text. Each function runs nothing: its contract is the statement, so that the crate is
// not proved without it.
ghost use Rattle.clike.specs.Laws.{ReadingStopsAtZero, CuttingLosesNothing, CommentsEnd, QuotesEnd};
ghost use Rattle.clike.specs.Worked.{WorkedCases};

pub fn reading_stops_at_zero()
    ensures { ReadingStopsAtZero }
{}

pub fn cutting_loses_nothing()
    ensures { CuttingLosesNothing }
{}

pub fn comments_end()
    ensures { CommentsEnd }
{}

pub fn quotes_end()
    ensures { QuotesEnd }
{}

// A finite check of the definitions.
pub fn worked_cases()
    ensures { WorkedCases }
{}
