//! What holds of legal reports: each function's contract is a law, and its body does nothing.

ghost use Rattle.std.specs.Prelude.{◌≡◌, ℕ, List, map};
ghost use Rattle.hls_scenario.specs.declared.scenario.Scenario.{Scenario};
ghost use Rattle.hls_report_text.specs.Content.{Content};
ghost use Rattle.hls_legal.specs.Moment.{Boxes};
ghost use Rattle.hls_legal.specs.Legal.{IsLegalContent};
ghost use Rattle.hls_audit.specs.declared.auditing.Outcome.{Outcome};
ghost use Rattle.hls_audit.specs.declared.auditing.Outcome.TheVariants.{Kept};
ghost use Rattle.hls_audit.specs.Audits.{IsAudit, IsTale};
ghost use Rattle.hls_view_margins.specs.declared.margin.Margin.{Margin};
ghost use Rattle.hls_view_margins.specs.Margins.{AreMargins, lasting};
ghost use Rattle.hls_view_legal_laws.specs.Told.{account_told};

/// Every legal report tells a tale: its commands and its paths can be followed.
pub fn legal_reports_tell_tales()
    ensures { (s : Scenario) (given : ℕ) (boxes : Boxes) (c : Content) → IsLegalContent s given boxes c →
        IsTale c Kept }
{}

/// Whatever an audit of a legal report answers, it is that the report is kept.
pub fn audits_of_legal_reports_are_kept()
    ensures { (s : Scenario) (given : ℕ) (boxes : Boxes) (c : Content) (audit : Outcome) →
        IsLegalContent s given boxes c → IsAudit c audit → audit ≡ Kept }
{}

/// The margins of a legal report have the names, ticks, guarantees and numbers of its accounts, in their order.
pub fn margins_have_the_numbers_of_the_accounts()
    ensures { (s : Scenario) (given : ℕ) (boxes : Boxes) (c : Content) (margins : List Margin) →
        IsLegalContent s given boxes c → AreMargins c (lasting c) margins → map account_told margins ≡ c.accounts }
{}
