// The format by how it is spelled, apart from how it is read.
ghost use Rattle.lines.specs.Spelled.{AsSpelled, EveryFileIsLaid, LaidOnce, OnlySays};
ghost use Rattle.lines.specs.Readings.{says};

// The lines are the file, and no other list of lines is. `says` tells of every line what it spells, and no other function does.
pub fn lines_are_spelled()
    ensures laid { EveryFileIsLaid }
    ensures once { LaidOnce }
    ensures spelled { AsSpelled says }
    ensures only { OnlySays }
{}
