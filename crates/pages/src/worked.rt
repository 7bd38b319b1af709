// The finite check of the definitions on the program's two files.
ghost use Rattle.pages.specs.Worked.{ProgramFiles};

// The definitions give the chosen places that were worked out by hand.
pub fn program_cases()
    ensures { ProgramFiles }
{}
