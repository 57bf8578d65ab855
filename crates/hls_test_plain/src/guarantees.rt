//! Values of the published tables, and `holds` beside a slow reading of each promise.

ghost use Rattle.std.specs.Prelude.{ℕ, ◌≤◌, ◌<◌, length};

use hls_frac::Frac;
use hls_guarantee::{Guarantee, holds, keeps_cap, valid};
use std::process::Abort;
use std::test::Fail;

fn blocks(hard: bool, x: u32, y: u32) -> Guarantee {
    Guarantee::Resb { hard, x, y }
}

fn windows(hard: bool, x: u32, y: u32) -> Guarantee {
    Guarantee::Resc { hard, x, y }
}

fn share(s: (u128, u128), d: (u128, u128)) -> Result<Guarantee, Fail> {
    Ok(Guarantee::Psbe {
        s: Frac::make(s.0, s.1).ok_or("a rate over 0")?,
        d: Frac::make(d.0, d.1).ok_or("an error over 0")?,
    })
}

#[test]
fn decides_lists(rt: HostRuntime) -> Result<(), Fail> {
    let half = share((1, 2), (1, 1))?;
    let cases: [(Guarantee, &[u8], bool); 10] = [
        (Guarantee::All, b"", true),
        (Guarantee::All, b"10", false),
        (windows(false, 1, 2), b"0", true),
        (windows(false, 1, 2), b"1001", false),
        (blocks(false, 1, 2), b"1001", true),
        (blocks(false, 1, 2), b"000", false),
        (blocks(true, 1, 2), b"11", true),
        (blocks(true, 1, 2), b"111", false),
        (half, b"0010", true),
        (half, b"0001", false),
    ];
    for (g, digits, want) in cases {
        let list: Vec<bool> = digits
            .iter()
            .map(|digit| *digit == b'1')
            .collect(rt.alloc())?;
        assert!(rt; valid(&g));
        assert!(rt; list.len() <= 4);
        assert_eq!(rt; holds(&g, list.as_slice()), want, "{g:?} at {digits:?}");
    }
    Ok(())
}

fn count(part: &[bool]) -> u64 {
    part.iter().filter(|served| **served).count() as u64
}

/// Whether a part has what a reservation wants of it.
fn is_reserved(hard: bool, x: u32, y: u32, part: &[bool]) -> bool {
    let got = count(part);
    let enough = u64::from(x).saturating_add(part.len() as u64) <= u64::from(y).saturating_add(got);
    enough && (!hard || got <= u64::from(x))
}

/// Whether a part of `p` ticks has at least `s * p - d`.
fn has_share(s: &Frac, d: &Frac, part: &[bool]) -> bool {
    let owed = s
        .num
        .saturating_mul(part.len() as u128)
        .saturating_mul(d.den);
    let paid = d
        .den
        .saturating_mul(u128::from(count(part)))
        .saturating_add(d.num);
    owed <= paid.saturating_mul(s.den)
}

/// Whether every part of at most so many ticks is as wanted.
fn every_part<P: Fn(&[bool]) -> bool>(list: &[bool], most: usize, wanted: P) -> bool
    requires { P.IsAlwaysCallable wanted }
{
    for from in 0..list.len() {
        for to in from..list.len() {
            if to - from < most && !wanted(&list[from..to + 1]) {
                return false;
            }
        }
    }
    true
}

/// Whether every piece of a list cut at this offset is reserved.
fn every_piece(hard: bool, x: u32, y: u32, offset: usize, list: &[bool]) -> bool
    requires { 0 < y }
{
    let (front, rest) = list.split_at(offset.min(list.len()));
    is_reserved(hard, x, y, front)
        && rest
            .chunks(y as usize)
            .all(|piece| is_reserved(hard, x, y, piece))
}

/// The promise of a guarantee, read part by part and piece by piece.
fn is_satisfied(g: &Guarantee, list: &[bool]) -> bool {
    match *g {
        Guarantee::All => every_part(list, 1, |part| count(part) == 1),
        Guarantee::Null => true,
        Guarantee::Resc { hard, x, y } => {
            every_part(list, y as usize, |part| is_reserved(hard, x, y, part))
        }
        Guarantee::Resb { hard, x, y } => {
            for offset in 0..y {
                if every_piece(hard, x, y, offset as usize, list) {
                    return true;
                }
            }
            false
        }
        Guarantee::Psbe { s, d } => every_part(list, list.len(), |part| has_share(&s, &d, part)),
    }
}

/// Whether a part gets at most the share `x / y` of its ticks and `2 * x`, for a share that is no rounded price.
fn is_within_share(x: u32, y: u32, part: &[bool]) -> bool {
    let most = u64::from(x)
        .saturating_mul(part.len() as u64)
        .saturating_add(
            2u64.saturating_mul(u64::from(x))
                .saturating_mul(u64::from(y)),
        );
    count(part).saturating_mul(u64::from(y)) <= most
}

/// The cap of a guarantee, read part by part.
fn is_capped(g: &Guarantee, list: &[bool]) -> bool {
    match *g {
        Guarantee::Resc { hard: true, x, y } => {
            every_part(list, y as usize, |part| count(part) <= u64::from(x))
        }
        Guarantee::Resb { hard: true, x, y } => {
            every_part(list, list.len(), |part| is_within_share(x, y, part))
        }
        _ => true,
    }
}

fn compare(rt: &impl Abort, g: Guarantee, list: &[bool])
    requires { length list.now ≤ 8 }
{
    assert!(rt; valid(&g));
    assert_eq!(rt;
        holds(&g, list),
        is_satisfied(&g, list),
        "{g:?} at {list:?}"
    );
    assert_eq!(rt;
        keeps_cap(&g, list),
        is_capped(&g, list),
        "cap of {g:?} at {list:?}"
    );
}

/// The lowest bits of a number.
fn bits(number: u32) -> [bool; 8] {
    let mut list = [false; 8];
    for at in 0..8u32 {
        list[at as usize] = number >> at & 1 == 1;
    }
    list
}

#[test]
fn decides_as_the_promises_read(rt: HostRuntime) -> Result<(), Fail> {
    for number in 0..256 {
        let list = bits(number);
        for len in 0..9 {
            let list = &list[..len];
            compare(&rt, Guarantee::All, list);
            compare(&rt, Guarantee::Null, list);
            for y in 1..5 {
                for x in 1..y + 1 {
                    for hard in [false, true] {
                        compare(&rt, blocks(hard, x, y), list);
                        compare(&rt, windows(hard, x, y), list);
                    }
                    compare(&rt, share((u128::from(x), u128::from(y)), (1, 2))?, list);
                    compare(&rt, share((u128::from(x), u128::from(y)), (3, 2))?, list);
                }
            }
        }
    }
    Ok(())
}
