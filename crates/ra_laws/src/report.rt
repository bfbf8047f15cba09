//! Laws of reports: each function does nothing, and its contract is a law that was proved.
ghost use Rattle.ra_laws.specs.ReportLaws.{NumbersAreDecimal, SameLinesSameJournal, OneJournalOfBytes, WrittenTellsItsJournal, ReportTellsItsJournal, SameLineSameEntry, EntryLineIsOneLine, ReportIsHeadAndEntries, EntriesAreLines, LinesBehind};

/// A program's number is written as std writes it.
pub fn numbers_are_decimal()
    ensures { NumbersAreDecimal }
{}

/// Two journals with the same entry lines are equal.
pub fn same_lines_same_journal()
    ensures { SameLinesSameJournal }
{}

/// No bytes tell two journals.
pub fn one_journal_of_bytes()
    ensures { OneJournalOfBytes }
{}

/// The report of a journal tells that journal.
pub fn report_tells_its_journal()
    ensures written { WrittenTellsItsJournal }
    ensures report { ReportTellsItsJournal }
{}

/// Two entries whose lines at one place are equal are equal.
pub fn same_line_same_entry()
    ensures { SameLineSameEntry }
{}

/// The lines of a report are ten before its entries, and one for each entry.
pub fn report_has_its_lines()
    ensures entry { EntryLineIsOneLine }
    ensures entries { EntriesAreLines }
    ensures report { ReportIsHeadAndEntries }
    ensures behind { LinesBehind }
{}
