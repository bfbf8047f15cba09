//! Laws of reports: each function does nothing, and its contract is a law that was proved.
ghost use Rattle.ra_verify.specs.Laws.{OneWrongLine, ReportHasNoneWrong};
ghost use Rattle.ra_laws.specs.VerifyLaws.{OneNextEntry, NoneWrongIsReport};

/// The entries so far, the worker and the place of a plan determine the one entry that may follow.
pub fn one_next_entry()
    ensures { OneNextEntry }
{}

/// Bytes have one wrong line, or none.
pub fn one_wrong_line()
    ensures { OneWrongLine }
{}

/// Bytes of which no line is wrong are the report of a legal whole journal.
pub fn none_wrong_is_report()
    ensures { NoneWrongIsReport }
{}

/// In the report of a legal whole journal from a feasible start no line is wrong.
pub fn report_has_none_wrong()
    ensures { ReportHasNoneWrong }
{}
