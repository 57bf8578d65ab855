// The first lines of a scenario, and how much there is of it.
use hls_gen::generate;
use hls_scenario::{Command, print_scenario};
use std::test::Fail;

const FIRST_LINES: &[u8] = b"hls 1
horizon 20000
depth 3
at 0 load root fp on cpu as ALL
at 0 load e edf on root prio 0 as ALL
at 0 load r rr 5 on root prio 1 as NULL
at 0 load s sfq 10 5 on e res 30 100 hard as PSBE 3/10 42
at 0 thread h0 on e res 1 88 hard as RESBH 1 88
at 0 thread h1 on e res 4 77 hard as RESBH 4 77
";

#[test]
fn begins_as_it_is_to(rt: HostRuntime) -> Result<(), Fail> {
    let scenario = generate(rt.alloc(), 0)?;
    assert_eq!(rt; scenario.items.items().len(), 2039);
    let moves = scenario
        .items
        .items()
        .iter()
        .filter(|item| matches!(item.command, Command::Move { .. }))
        .count();
    assert_eq!(rt; moves, 9);
    let text = print_scenario(rt.alloc(), &scenario)?;
    assert!(rt; text.as_slice().starts_with(FIRST_LINES));
    Ok(())
}
