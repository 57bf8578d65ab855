//! Lists of the published table, and a watch beside what decides whole lists.

ghost use Rattle.std.specs.Prelude.{◌≡◌, ◌≤◌, length};
ghost use Rattle.hls_guarantee.specs.Limits.{IsValid};

use hls_audit_watch::Watch;
use hls_frac::Frac;
use hls_guarantee::{Guarantee, holds, keeps_cap, valid};
use std::alloc::Global;
use std::process::Abort;
use std::test::Fail;

fn blocks(hard: bool, x: u32, y: u32) -> Guarantee {
    Guarantee::Resb { hard, x, y }
}

fn windows(hard: bool, x: u32, y: u32) -> Guarantee {
    Guarantee::Resc { hard, x, y }
}

fn share(s: (u128, u128), d: (u128, u128)) -> Result<Guarantee, Fail> {
    Ok(Guarantee::Psbe {
        s: Frac::make(s.0, s.1).ok_or("a rate over 0")?,
        d: Frac::make(d.0, d.1).ok_or("an error over 0")?,
    })
}

/// Compares what a watch answers.
fn answers(rt: &impl Abort, watch: &Watch, kept: bool, capped: bool, digits: &[u8]) {
    assert_eq!(rt; watch.kept(), kept, "{digits:?}");
    assert_eq!(rt; watch.capped(), capped, "cap of {digits:?}");
}

/// Tells a list, and compares what is answered after each tick, as digits.
fn tell(rt: &impl Abort, watch: &mut Watch, digits: &[u8], kept: &[u8], capped: &[u8])
    requires ticks { watch.old.ticks ≡ 8 }
    requires few { length digits.now ≤ 8 }
    requires kept { length kept.now ≡ length digits.now }
    requires capped { length capped.now ≡ length digits.now }
{
    watch.restart();
    for at in 0..digits.len() {
        watch.push(digits[at] == b'1');
        answers(rt, watch, kept[at] == b'1', capped[at] == b'1', digits);
    }
}

/// A guarantee, a list, and what is answered after each tick: whether it is kept, and capped.
type Told<'a> = (Guarantee, &'a [u8], &'a [u8], &'a [u8]);

/// Compares a list with a new watch.
fn tell_new(rt: &impl Abort, alloc: Global, case: Told) -> Result<(), Fail> {
    let (g, digits, kept, capped) = case;
    assert!(rt; valid(&g));
    assert!(rt; digits.len() <= 8);
    assert_eq!(rt; kept.len(), digits.len());
    assert_eq!(rt; capped.len(), digits.len());
    let mut watch = Watch::new(alloc, &g, 8)?;
    tell(rt, &mut watch, digits, kept, capped);
    Ok(())
}

#[test]
fn watches_lists(rt: HostRuntime) -> Result<(), Fail> {
    let alloc = rt.alloc();
    let half = share((1, 2), (1, 1))?;
    tell_new(&rt, alloc, (Guarantee::All, b"110", b"110", b"111"))?;
    tell_new(&rt, alloc, (blocks(false, 1, 2), b"1001", b"1111", b"1111"))?;
    tell_new(&rt, alloc, (blocks(false, 1, 2), b"000", b"110", b"111"))?;
    tell_new(
        &rt,
        alloc,
        (blocks(true, 1, 2), b"11111", b"11000", b"11110"),
    )?;
    tell_new(
        &rt,
        alloc,
        (windows(false, 1, 2), b"1001", b"1100", b"1111"),
    )?;
    tell_new(&rt, alloc, (windows(true, 1, 2), b"1011", b"1110", b"1110"))?;
    tell_new(&rt, alloc, (half, b"0001", b"1100", b"1111"))
}

/// Compares what a watch answers with what is decided of the list.
fn as_decided(rt: &impl Abort, watch: &Watch, g: &Guarantee, list: &[bool])
    requires few { length list.now ≤ 8 }
    requires valid { IsValid g.now }
{
    assert_eq!(rt; watch.kept(), holds(g, list), "{g:?} at {list:?}");
    assert_eq!(rt;
        watch.capped(),
        keeps_cap(g, list),
        "cap of {g:?} at {list:?}"
    );
}

/// Tells a list, and compares what is answered with what is decided of each list so far.
fn compare(rt: &impl Abort, watch: &mut Watch, g: &Guarantee, list: &[bool])
    requires ticks { watch.old.ticks ≡ 8 }
    requires few { length list.now ≤ 8 }
    requires valid { IsValid g.now }
    ensures ticks { watch.new.ticks ≡ 8 }
{
    watch.restart();
    for at in 0..list.len() {
        watch.push(list[at]);
        as_decided(rt, watch, g, &list[..at + 1]);
    }
}

/// The lowest bits of a number.
fn bits(number: u32) -> [bool; 8] {
    let mut list = [false; 8];
    for at in 0..8u32 {
        list[at as usize] = number >> at & 1 == 1;
    }
    list
}

/// Compares a guarantee at every list of eight ticks.
fn compare_all(rt: &impl Abort, alloc: Global, g: Guarantee) -> Result<(), Fail> {
    assert!(rt; valid(&g));
    let mut watch = Watch::new(alloc, &g, 8)?;
    for number in 0..256 {
        compare(rt, &mut watch, &g, &bits(number));
    }
    Ok(())
}

#[test]
fn watches_as_whole_lists_are_decided(rt: HostRuntime) -> Result<(), Fail> {
    compare_all(&rt, rt.alloc(), Guarantee::All)?;
    compare_all(&rt, rt.alloc(), Guarantee::Null)?;
    for y in [1, 2, 3, 4, 5, 7, 8, 9, 12] {
        for x in 1..y + 1 {
            for hard in [false, true] {
                compare_all(&rt, rt.alloc(), blocks(hard, x, y))?;
                compare_all(&rt, rt.alloc(), windows(hard, x, y))?;
            }
            compare_all(
                &rt,
                rt.alloc(),
                share((u128::from(x), u128::from(y)), (1, 2))?,
            )?;
            compare_all(
                &rt,
                rt.alloc(),
                share((u128::from(x), u128::from(y)), (3, 2))?,
            )?;
        }
    }
    Ok(())
}
