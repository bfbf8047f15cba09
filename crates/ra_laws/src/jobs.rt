//! Laws of what jobs compute: each function does nothing, and its contract is a law that was proved.
ghost use Rattle.ra_laws.specs.JobLaws.{AlikeRunAlike, ToldFilesMeanOne, TrialsHaveOneText, TrialsPrintOneText};

/// Jobs compute equal results from instances with equal numbers, whatever rooms their lists have.
pub fn alike_run_alike()
    ensures { AlikeRunAlike }
{}

/// The told files of a job mean one instance, apart from the rooms of its lists, and one assignment each.
pub fn told_files_mean_one()
    ensures { ToldFilesMeanOne }
{}

/// The text of a trial depends only on its number.
pub fn trials_have_one_text()
    ensures { TrialsHaveOneText }
{}

/// Two trials of a number print one text.
pub fn trials_print_one_text()
    ensures { TrialsPrintOneText }
{}
