// A trace of each kind of event.
use hls_chron::List;
use hls_view_trace::{Category, Counts, Event, Instant, Place, Slice, Trace, write_trace};
use std::alloc::Global;
use std::test::Fail;

fn text(alloc: Global, bytes: &[u8]) -> Result<List<u8>, Fail> {
    Ok(List::of(bytes.to_vec(alloc)?))
}

fn events(alloc: Global) -> Result<List<Event>, Fail> {
    let place = Place {
        process: 3,
        track: 4,
    };
    let mut events = Vec::new(alloc);
    events.push(Event::ProcessName {
        process: 3,
        name: text(alloc, b"cpu/root/wheel wheel 20 prio 0 ALL")?,
    })?;
    events.push(Event::TrackOrder { place, order: 4 })?;
    events.push(Event::Slice(Slice {
        category: Category::Stay,
        name: text(alloc, b"RESCH 5 20")?,
        place,
        from: 1,
        to: 79,
        counts: Some(Counts {
            ready: 30,
            served: 20,
        }),
    }))?;
    events.push(Event::Instant(Instant {
        category: Category::Refused,
        name: text(alloc, b"wake motor for 5")?,
        place,
        tick: 2,
        answer: text(alloc, b"refused 11 NoSuchName motor")?,
    }))?;
    Ok(List::of(events))
}

#[test]
fn writes_a_line_for_each_event(rt: HostRuntime) -> Result<(), Fail> {
    let trace = Trace {
        horizon: 80,
        tick: 1000,
        verdict: text(rt.alloc(), b"kept")?,
        events: events(rt.alloc())?,
    };
    let mut out = Vec::new(rt.alloc());
    write_trace(&mut out, &trace)?;
    let wanted = b"{\"displayTimeUnit\":\"ms\",\"otherData\":{\"horizon\":80,\"tick\":1000\
        ,\"audit\":\"kept\"},\"traceEvents\":[
{\"ph\":\"M\",\"name\":\"process_name\",\"pid\":3,\"args\":{\"name\":\"cpu/root/wheel wheel 20 prio 0 ALL\"}},
{\"ph\":\"M\",\"name\":\"thread_sort_index\",\"pid\":3,\"tid\":4,\"args\":{\"sort_index\":4}},
{\"ph\":\"X\",\"cat\":\"stay\",\"name\":\"RESCH 5 20\",\"pid\":3,\"tid\":4,\"ts\":1000\
        ,\"dur\":79000,\"args\":{\"ready\":30,\"served\":20}},
{\"ph\":\"i\",\"s\":\"t\",\"cat\":\"refused\",\"name\":\"wake motor for 5\",\"pid\":3,\"tid\":4\
        ,\"ts\":2000,\"args\":{\"answer\":\"refused 11 NoSuchName motor\"}}
]}
";
    assert_eq!(rt; out.as_slice(), wanted.as_slice());
    Ok(())
}
