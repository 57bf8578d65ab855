//! Worked runs that reach the bounds of the laws: each function's contract is a fact about one, and its body does
//! nothing.

ghost use Rattle.std.specs.Prelude.{◌≡◌, ℕ, ◌+◌, ◌*◌, ◌-◌, ◌<◌, ◌≤◌, List, [], ◌∷◌, map, false, MatchOption};
ghost use Rattle.hls_book_fairness.specs.Delays.{delay};
ghost use Rattle.hls_book_isolation.specs.Demand.{demand};
ghost use Rattle.hls_chron.specs.Kinds.{sharing_of};
ghost use Rattle.hls_chron.specs.Ledger.{now_of};
ghost use Rattle.hls_chron.specs.Parts.{all_parts, parts};
ghost use Rattle.hls_chron.specs.Ticks.{count};
ghost use Rattle.hls_frac.specs.declared.Frac.{Frac};
ghost use Rattle.hls_guarantee.specs.declared.Guarantee.TheVariants.{Psbe, Resc};
ghost use Rattle.hls_guarantee.specs.Satisfaction.{Satisfies};
ghost use Rattle.hls_machine.specs.Hierarchy.{start, had_asked, was_served, book_of};
ghost use Rattle.hls_machine.specs.Steps.{state};
ghost use Rattle.hls_machine.specs.Legal.{IsLegal};
ghost use Rattle.hls_machine.specs.Supplied.{KeepsStays};
ghost use Rattle.hls_legal_jobs.specs.Jobs.{AsksForJobs};
ghost use Rattle.hls_legal_jobs.specs.Reports.{due_in};
ghost use Rattle.hls_legal_jobs.specs.Runs.{HasReservation};
ghost use Rattle.hls_test_runs.specs.Apart.{couple, apart, apart_ticks, sleeper, starter};
ghost use Rattle.hls_test_runs.specs.Crowded.{crowded, before_crowd, crowded_ticks, shorter};
ghost use Rattle.hls_test_runs.specs.Moves.{root};
ghost use Rattle.hls_test_runs.specs.Paced.{paced, paced_ticks, latter, latter_reserved, is_first, two_periods};

/// A reservation of 1 tick in every 3, beside one of 4 in every 6, has no tick of four in a row, although it asks in
/// each: `2 * y - x - 1` ticks. So `x` ticks in each block of `y` are `x` of any `2 * y - x` in a row, and of no fewer.
pub fn a_reservation_waits_as_long_as_it_may()
    ensures legal { IsLegal start crowded }
    ensures ticks { map (λ (t : ℕ). ((state start crowded).past t).to) (0 ∷ 1 ∷ 2 ∷ 3 ∷ 4 ∷ 5 ∷ 6 ∷ []) ≡
        crowded_ticks }
    ensures kept { KeepsStays (state start crowded) }
    ensures waits { count (was_served (state start crowded).past shorter) 1 4 ≡ 0 }
    ensures no_fewer { ¬ Satisfies (Resc false 1 4) (was_served (state start crowded).past shorter) 0 7 }
{}

/// Right after that it has both of two ticks, the last of one period and the first of the next: twice its budget, and
/// its share of no further tick, as much as a hard seat has of two ticks. Its guarantee's cap, the share of these ticks
/// and twice the budget, leaves no room for a third either.
pub fn a_hard_reservation_reaches_its_cap()
    ensures got { count (was_served (state start crowded).past shorter) 5 2 ≡ 2 }
    ensures reached { count (was_served (state start crowded).past shorter) 5 2 * 3 ≡ 2 * 1 * 3 + 1 * (2 - 2 * 1) }
    ensures no_more { parts 1 3 * 2 + 2 * 1 * all_parts < 3 * all_parts }
{}

/// Before the first tick of this run, what the two demand up to tick 6, the end of the longer period, is all ticks up
/// to it: four of the longer reservation, and one in each of two periods of the shorter one.
pub fn reservations_demand_all_ticks()
    ensures full { demand (book_of ((state start before_crowd).nodes root)) 3 6 ≡ 6 }
    ensures now { now_of (book_of ((state start before_crowd).nodes root)) ≡ 0 }
{}

/// Of two threads of weight 1 that share the root, the one that sleeps through the first tick has the next two. So they
/// come apart by one tick of each, as far as fair queueing lets them, and the other has its tick as the third, as late
/// as it may. No share of half the ticks with an error below one, that of the step, would be kept.
pub fn a_fair_seat_waits_as_long_as_it_may()
    ensures legal { IsLegal start apart }
    ensures ticks { map (λ (t : ℕ). ((state start apart).past t).to) (0 ∷ 1 ∷ 2 ∷ 3 ∷ []) ≡ apart_ticks }
    ensures kept { KeepsStays (state start apart) }
    ensures ahead { count (was_served (state start apart).past sleeper) 1 2 ≡ 2 }
    ensures waits { count (was_served (state start apart).past starter) 1 2 ≡ 0 }
    ensures third { count (was_served (state start apart).past starter) 1 3 ≡ 1 }
    ensures bound { MatchOption (sharing_of couple) ⊥ (λ sharing. delay sharing 1 1 ≡ 3) }
    ensures no_less { (s d : Frac) → s.num ≡ 1 → s.den ≡ 2 →
        Satisfies (Psbe s d) (was_served (state start apart).past starter) 1 3 → d.den ≤ d.num }
{}

/// A reservation of 2 ticks in every 3 is woken beside one of 1 in every 3, which has the lesser slot, for a job as the
/// law on jobs asks for it. It has its first tick as the second, `y - x + 1` ticks after its wake, its second at the
/// end of the period, and so on in the next: each of the four as late as the law allows, and none of them a tick
/// sooner.
pub fn a_job_is_served_as_late_as_it_may_be()
    ensures legal { IsLegal start paced }
    ensures ticks { map (λ (t : ℕ). ((state start paced).past t).to) (0 ∷ 1 ∷ 2 ∷ 3 ∷ 4 ∷ 5 ∷ []) ≡ paced_ticks }
    ensures kept { KeepsStays (state start paced) }
    ensures reserved { HasReservation (state start paced) latter latter_reserved }
    ensures job { AsksForJobs latter_reserved two_periods 0 is_first (had_asked (state start paced).past latter)
        (was_served (state start paced).past latter) (state start paced).now }
    ensures due { (n : ℕ) → 1 ≤ n → n ≤ 4 →
        count (was_served (state start paced).past latter) 0 (due_in latter_reserved n) ≡ n }
    ensures no_sooner { (n : ℕ) → 1 ≤ n → n ≤ 4 →
        count (was_served (state start paced).past latter) 0 (due_in latter_reserved n - 1) < n }
{}
