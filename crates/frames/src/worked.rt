ghost use Rattle.frames.specs.Worked.{Worked};

// The definitions that the contracts use, at worked cases. It runs no code.
pub fn worked_cases()
    ensures { Worked }
{}
