//! Laws of lines: each function does nothing, and its contract is a law that was proved.
ghost use Rattle.ra_laws.specs.LineLaws.{LinesAreTheBytes, LinesOfBoth, LinesAreWhole};

/// The lines of some bytes are the bytes, and nothing is lost between them.
pub fn lines_are_the_bytes()
    ensures bytes { LinesAreTheBytes }
    ensures both { LinesOfBoth }
{}

/// Each line has an LF at its end alone, and each but the last has one.
pub fn lines_are_whole()
    ensures { LinesAreWhole }
{}
