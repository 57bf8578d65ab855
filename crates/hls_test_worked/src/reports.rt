//! Worked reports: each function's contract is a fact about one, and its body does nothing.

ghost use Rattle.hls_legal.specs.Legal.{IsLegalContent};
ghost use Rattle.hls_top.specs.Promises.{AnswersEach};
ghost use Rattle.hls_test_worked.specs.Said.{full_kit};
ghost use Rattle.hls_test_worked.specs.Joined.{joined, joined_scenario};
ghost use Rattle.hls_test_worked.specs.Refused.{refuses_the_thread};
ghost use Rattle.hls_test_worked.specs.Settled.{settled, settled_scenario, unsettled};
ghost use Rattle.hls_test_worked.specs.Smallest.{smallest, smallest_scenario};
ghost use Rattle.hls_test_worked.specs.Withheld.{withheld, withheld_scenario};
ghost use Rattle.hls_test_worked.specs.Wrong.{refuses_without_cause, idles_while_the_root_asks};
ghost use Rattle.hls_test_worked.specs.Wrong.{keeps_null_for_what_was_wanted};

/// One tick, in which the one thread on a scheduler of fixed priority runs: the report is legal.
pub fn the_smallest_report_is_legal()
    ensures { IsLegalContent smallest_scenario 3 full_kit smallest }
{}

/// A join that gets a part of reservations, and turns beside another thread; its move is refused. The report
/// is legal, with 64 boxes of each kind and the depth 3.
pub fn the_report_with_a_join_is_legal()
    ensures { IsLegalContent joined_scenario 3 full_kit joined }
{}

/// A reservation that is withdrawn after its first tick holds its parts to its deadline: another, for which there
/// would be room, is refused. The report is legal.
pub fn the_report_of_a_withdrawn_reservation_is_legal()
    ensures { IsLegalContent withheld_scenario 3 full_kit withheld }
{}

/// A scheduler of reservations moves, and the one on it has its budget again, since it is settled. The report is
/// legal.
pub fn the_report_of_a_moved_scheduler_is_legal()
    ensures { IsLegalContent settled_scenario 3 full_kit settled }
{}

/// A report whose moved scheduler is not settled is not legal.
pub fn no_moved_scheduler_is_left_unsettled()
    ensures { ¬ IsLegalContent settled_scenario 3 full_kit unsettled }
{}

/// A report that refuses a thread without cause is not legal.
pub fn no_thread_is_refused_without_cause()
    ensures { ¬ IsLegalContent joined_scenario 3 full_kit refuses_without_cause }
{}

/// A report that idles while the root asks is not legal.
pub fn no_tick_idles_while_the_root_asks()
    ensures { ¬ IsLegalContent joined_scenario 3 full_kit idles_while_the_root_asks }
{}

/// A report that keeps nothing for what was wanted is not legal.
pub fn nothing_is_no_answer_to_what_is_wanted()
    ensures { ¬ IsLegalContent joined_scenario 3 full_kit keeps_null_for_what_was_wanted }
{}

/// A report that refuses a thread without cause, and is right in all that comes of it, does not keep the promise on
/// answers.
pub fn no_wrong_refusal_is_a_defined_answer()
    ensures { ¬ AnswersEach full_kit refuses_the_thread }
{}
