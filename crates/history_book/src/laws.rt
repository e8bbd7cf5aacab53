//! What holds of every history. Each law is a function with nothing to do.
ghost use Rattle.std.specs.Prelude.{◌≡◌, List};
ghost use Rattle.protocol.specs.History.{Entry, InTime};
ghost use Rattle.line_forms.specs.Texts.{IsFaultless};
ghost use Rattle.history_making.specs.Books.{Book};
ghost use Rattle.history_book.specs.Judging.{AreInTime, EachEndsAfterItsStart};
ghost use Rattle.history_book.specs.Reports.{report_text};
ghost use Rattle.history_book.specs.ReportTexts.{IsReport, report};

/// In time is for the judge what it is for runs, where no entry ends before it starts.
pub fn in_time_is_that_of_runs()
    ensures same { (h : List Entry) → EachEndsAfterItsStart h → AreInTime h → InTime h }
    ensures back { (h : List Entry) → InTime h → AreInTime h }
{}

/// The report of a history that has one has no fault, and is the report of no other history.
pub fn histories_have_one_report()
    ensures accepted { (book : Book) → IsReport book → IsFaultless report (report_text book) }
    ensures one { (a b : Book) → IsReport a → IsReport b → report_text a ≡ report_text b → a ≡ b }
{}
