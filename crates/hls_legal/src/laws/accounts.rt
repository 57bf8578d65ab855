//! What a report tells of the legal run that it tells: each function's contract is a law, and its body does
//! nothing.

ghost use Rattle.std.specs.Prelude.{◌≡◌, ◌<◌, ℕ, List, All, Some, true, map, length, slice_get};
ghost use Rattle.hls_text.specs.Lines.{Text};
ghost use Rattle.hls_report_text.specs.Content.{Content};
ghost use Rattle.hls_report_text.specs.WellFormed.{IsContent};
ghost use Rattle.hls_machine.specs.Hierarchy.{start};
ghost use Rattle.hls_machine.specs.Steps.{Step, state};
ghost use Rattle.hls_machine.specs.Legal.{IsLegal};
ghost use Rattle.hls_legal.specs.Schedule.{tick_list, path_at, is_served};
ghost use Rattle.hls_legal.specs.Ready.{is_ready};
ghost use Rattle.hls_legal.specs.Stays.{stays};
ghost use Rattle.hls_legal.specs.Accounts.{accounts_of, idle_of};
ghost use Rattle.hls_legal.specs.Tells.{Tells};
ghost use Rattle.hls_legal.specs.Agrees.{AgreesIn, IsKeptBy, told_stay, accounts_in, idle_in};

/// The stretches of a report spell a list of ticks, one for each tick below the horizon, with the
/// path of the stretch that has it.
pub fn stretches_spell_each_tick()
    ensures ticks { (c : Content) → IsContent c → length (tick_list c.stretches) ≡ c.horizon }
    ensures paths { (c : Content) → IsContent c → (t : ℕ) → t < c.horizon →
        slice_get (tick_list c.stretches) t ≡ Some (path_at c.stretches t) }
{}

/// In each tick of each stay of a legal run, the thread is ready by the report exactly where it was
/// ready in the run, and served exactly where the tick was given to it.
pub fn reports_tell_who_is_ready_and_served()
    ensures { (c : Content) (steps : List Step) → IsLegal start steps → Tells c steps →
        All (AgreesIn c (state start steps)) (state start steps).stays }
{}

/// Whoever is served in a tick is ready in it, by the report.
pub fn reports_run_ready_threads()
    ensures { (c : Content) (steps : List Step) → IsLegal start steps → Tells c steps →
        (t : ℕ) (name : Text) → t < c.horizon → is_served c.stretches name t ≡ true →
        is_ready c name t ≡ true }
{}

/// The stays by the report are those of the run, in the order in which they were opened, and with
/// what was guaranteed for them.
pub fn reports_tell_the_stays()
    ensures { (c : Content) (steps : List Step) → IsLegal start steps → Tells c steps →
        stays c.answered ≡ map told_stay (state start steps).stays }
{}

/// The accounts and the idle ticks that the report ought to print are those of the run.
pub fn reports_tell_the_accounts()
    ensures accounts { (c : Content) (steps : List Step) → IsLegal start steps → Tells c steps →
        accounts_of c ≡ accounts_in (state start steps) }
    ensures idle { (c : Content) (steps : List Step) → IsLegal start steps → Tells c steps →
        idle_of c ≡ idle_in (state start steps) }
{}

/// A report that tells a legal run keeps its stays, whatever was loaded: in each window of each stay
/// the schedule gives the thread what is guaranteed for it, and over the whole stay it keeps the cap.
pub fn reports_keep_their_stays()
    ensures { (c : Content) (steps : List Step) → IsLegal start steps → Tells c steps →
        All (IsKeptBy c) (stays c.answered) }
{}
