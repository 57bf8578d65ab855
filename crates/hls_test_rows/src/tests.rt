// Where windows begin, and who is ready and served.
use hls_report::read_report;
use hls_test_accounts::{is_ready, is_served, stays_of, window_start};
use std::test::Fail;

/// A thread that is woken, blocked, and woken for three ticks.
const BURST: &[u8] = b"hls-report 1\nhorizon 9\ndepth 3\nat 0 load root fp on cpu as ALL\n= done\n\
    at 0 thread a on root prio 0 as ALL\n= done\nat 1 wake a\n= done\nat 3 block a\n= done\n\
    at 4 wake a for 3\n= done\nschedule\n0..0 idle\n1..2 cpu/root/a\n3..3 idle\n4..6 cpu/root/a\n\
    7..8 idle\naccounts\na 0..8 ALL ready 5 served 5\nidle 4\nend\n";

#[test]
fn finds_where_windows_begin(rt: HostRuntime) -> Result<(), Fail> {
    match read_report(rt.alloc(), BURST) {
        Ok(report) => {
            let stays = stays_of(rt.alloc(), report.answered.items())?;
            for stay in stays.iter() {
                for (until, start) in [(3, 1), (4, 4), (7, 4), (9, 9)] {
                    if stay.until.is_none() && stay.since <= until && until <= report.horizon {
                        assert_eq!(rt; window_start(&report, stay, until), start, "at {until}");
                    } else {
                        return Err(Fail::from("the stay is another"));
                    }
                }
                for (tick, ready) in [(0, false), (2, true), (3, false), (6, true), (7, false)] {
                    assert_eq!(rt; is_ready(&report, &stay.name, tick), ready, "at {tick}");
                    assert_eq!(rt; is_served(&report, &stay.name, tick), ready, "at {tick}");
                }
            }
            assert_eq!(rt; stays.len(), 1);
        }
        Err(fault) => return Err(Fail::from("no report")),
    }
    Ok(())
}

/// A thread with releases at 1, at 5, and at 9, where it is blocked.
const PERIODIC: &[u8] =
    b"hls-report 2\nhorizon 10\ndepth 3\nat 0 load root fp on cpu as ALL\n= done\n\
    at 0 thread a on root prio 0 as ALL\n= done\nat 1 wake a every 4 burst 2\n= done\n\
    at 9 block a\n= done\nschedule\n0..0 idle\n1..2 cpu/root/a\n3..4 idle\n5..6 cpu/root/a\n\
    7..9 idle\naccounts\na 0..9 ALL ready 4 served 4\nidle 6\nend\n";

#[test]
fn finds_who_is_ready_by_a_periodic_wake(rt: HostRuntime) -> Result<(), Fail> {
    match read_report(rt.alloc(), PERIODIC) {
        Ok(report) => {
            let stays = stays_of(rt.alloc(), report.answered.items())?;
            for stay in stays.iter() {
                for (tick, ready) in [(0, false), (1, true), (2, true), (3, false), (4, false)] {
                    assert_eq!(rt; is_ready(&report, &stay.name, tick), ready, "at {tick}");
                }
                for (tick, ready) in [(5, true), (6, true), (7, false), (8, false), (9, false)] {
                    assert_eq!(rt; is_ready(&report, &stay.name, tick), ready, "at {tick}");
                }
            }
            assert_eq!(rt; stays.len(), 1);
        }
        Err(fault) => return Err(Fail::from("no report")),
    }
    Ok(())
}
