//! What holds where a legal report is read: each function's contract is a law, and its body does nothing.

ghost use Rattle.std.specs.Prelude.{◌≡◌, ◌≢◌, ◌≤◌, ℕ, Some, length};
ghost use Rattle.hls_text.specs.Lines.{Text};
ghost use Rattle.hls_io.specs.declared.status.Status.{Status};
ghost use Rattle.hls_io.specs.declared.status.Status.TheVariants.{Done, Broken};
ghost use Rattle.hls_report_text.specs.Content.{Content, content_of};
ghost use Rattle.hls_legal.specs.Moment.{Boxes};
ghost use Rattle.hls_top.specs.Exchange.{report_limit};
ghost use Rattle.hls_top.specs.Outputs.{IsReportOf};
ghost use Rattle.hls_top.specs.Musts.{OrMemory};
ghost use Rattle.hls_view_words.specs.Table.{IsView};
ghost use Rattle.hls_view_words.specs.declared.views.View.{View};
ghost use Rattle.hls_view_words.specs.declared.views.View.TheVariants.{Margins};
ghost use Rattle.hls_view.specs.Viewing.{Viewing, IsFaultless};
ghost use Rattle.hls_view.specs.Texts.{HasManyRows};
ghost use Rattle.hls_view.specs.Ends.{Ends};
ghost use Rattle.hls_view.specs.Musts.{MustAnswer};
ghost use Rattle.hls_view.specs.Reads.{ReadsLegalReport};
ghost use Rattle.hls_view.specs.Kept.{ShowsItIsKept};
ghost use Rattle.hls_view.specs.Accounts.{ShowsAccounts};

/// What `run` of `hls` writes is a legal report, so that the other laws speak of it where it is read.
pub fn what_run_writes_is_legal()
    ensures { (depth : ℕ) (boxes : Boxes) (bytes output : Text) (x : Viewing)
        (written : IsReportOf depth boxes bytes output) → x.source.left ≡ Some output →
        ReadsLegalReport x (content_of written.report) }
{}

/// Where a legal report is read, the program never ends as at one whose commands or paths cannot be followed.
pub fn legal_reports_are_never_called_broken()
    ensures { (x : Viewing) (c : Content) (status : Status) → ReadsLegalReport x c → Ends x status →
        status ≢ Broken }
{}

/// At status 0 what is written is the view of the report as a kept one, and says that it is kept.
pub fn views_of_legal_reports_say_kept()
    ensures { (x : Viewing) (c : Content) → ReadsLegalReport x c → Ends x Done → ShowsItIsKept x c }
{}

/// At status 0 the margins that are written have the names, ticks, guarantees and numbers of the accounts.
pub fn margins_shown_have_the_numbers_of_the_accounts()
    ensures { (x : Viewing) (c : Content) → ReadsLegalReport x c → IsView x.words Margins → Ends x Done →
        ShowsAccounts x c }
{}

/// A legal report within the limit is shown, unless the view has too many rows or memory is wanting.
pub fn legal_reports_are_shown()
    ensures { (x : Viewing) (c : Content) (view : View) (status : Status) (reads : ReadsLegalReport x c) →
        length reads.bytes ≤ report_limit → IsView x.words view → ¬ HasManyRows view c → IsFaultless x →
        MustAnswer x status → OrMemory status (status ≡ Done) }
{}
