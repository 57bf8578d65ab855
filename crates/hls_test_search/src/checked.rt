// Derivations that are checked at places.
ghost use Rattle.std.specs.Prelude.{◌≡◌, IfOk};
ghost use Rattle.hls_chron.specs.Kinds.{port_count};
ghost use Rattle.hls_chron.specs.Ranges.{ConfigInRange, TermsInRange};
ghost use Rattle.hls_guarantee.specs.Limits.{IsValid};

use crate::tests::fair_queueing;
use hls_check::{Verdict, check};
use hls_chron::{Config, Terms};
use hls_derive::{Place, read_derivation};
use hls_guarantee::{Guarantee, read_guarantee};
use std::alloc::Global;
use std::test::Fail;

/// The guarantee of that text.
fn read(text: &str) -> Result<Guarantee, Fail>
    ensures { IfOk result (λ g. IsValid g) }
{
    Ok(read_guarantee(text.as_bytes()).ok_or("a guarantee")?)
}

/// The verdict on the derivation of that text, at a place with one port.
fn judge(
    alloc: Global,
    text: &str,
    place: &Place,
    have: &str,
    want: &str,
) -> Result<Option<Verdict>, Fail>
    requires config { ConfigInRange place.now.config }
    requires terms { TermsInRange place.now.terms }
    requires ports { port_count place.now.config ≡ 1 }
{
    let haves = [read(have)?];
    let want = read(want)?;
    match read_derivation(alloc, text.as_bytes())? {
        Some(d) => Ok(Some(check(&d, place, &haves, &want))),
        None => Ok(None),
    }
}

const FIRST: Place = Place {
    config: Config::Fp,
    terms: Terms::Prio(0),
};

const SECOND: Place = Place {
    config: Config::Fp,
    terms: Terms::Prio(1),
};

#[test]
fn fixed_priority_passes_on_what_it_has(rt: HostRuntime) -> Result<(), Fail> {
    let alloc = rt.alloc();
    let kept = judge(alloc, "ALL FP ALL", &FIRST, "ALL", "ALL")?;
    assert_eq!(rt; kept, Some(Verdict::Yes));
    let less = judge(alloc, "ALL FP ALL", &FIRST, "ALL", "NULL")?;
    assert_eq!(rt; less, Some(Verdict::No { step: 2 }));
    let nothing = judge(alloc, "ALL FP ALL", &FIRST, "NULL", "ALL")?;
    assert_eq!(rt; nothing, Some(Verdict::No { step: 0 }));
    let later = judge(alloc, "ALL FP ALL", &SECOND, "ALL", "ALL")?;
    assert_eq!(rt; later, Some(Verdict::No { step: 1 }));
    Ok(())
}

/// Derivations of a share, and the first step of each that fails.
const SHARES: [(&str, Verdict); 7] = [
    (
        "RESBS 3 10 R4 PSBE 3/10 21/5 SFQ PSBE 9/40 83/20",
        Verdict::Yes,
    ),
    (
        "RESBS 3 10 R4 PSBE 3/10 4 SFQ PSBE 9/40 83/20",
        Verdict::No { step: 1 },
    ),
    (
        "RESBS 3 10 R4 PSBE 3/10 21/5 SFQ PSBE 9/40 4",
        Verdict::No { step: 2 },
    ),
    (
        "RESBS 3 10 R4 PSBE 3/10 21/5 EDF PSBE 9/40 83/20",
        Verdict::No { step: 2 },
    ),
    (
        "RESBS 3 10 R4 PSBE 3/10 21/5 SFQ PSBE 9/40 83/20 R1 PSBE 1/5 5",
        Verdict::No { step: 4 },
    ),
    (
        "RESBS 3 10 R4 PSBE 3/10 21/5 SFQ PSBE 9/40 83/20 R1 PSBE 1/4 5",
        Verdict::No { step: 3 },
    ),
    (
        "RESBS 3 9 R4 PSBE 3/10 21/5 SFQ PSBE 9/40 83/20",
        Verdict::No { step: 0 },
    ),
];

/// The first of the derivations of a share whose verdict is another.
fn first_other(alloc: Global) -> Result<Option<usize>, Fail> {
    let place = fair_queueing(4, 3, 1);
    for at in 0..SHARES.len() {
        let (text, told) = SHARES[at];
        if judge(alloc, text, &place, "RESBS 3 10", "PSBE 9/40 83/20")? != Some(told) {
            return Ok(Some(at));
        }
    }
    Ok(None)
}

#[test]
fn numbers_the_first_step_that_fails(rt: HostRuntime) -> Result<(), Fail> {
    assert_eq!(rt; first_other(rt.alloc())?, None);
    Ok(())
}

#[test]
fn counts_a_quantum_of_each_other_seat(rt: HostRuntime) -> Result<(), Fail> {
    let alloc = rt.alloc();
    let place = fair_queueing(4, 1, 2);
    let kept = judge(
        alloc,
        "ALL R8 PSBE 1 0 SFQ PSBE 1/4 2",
        &place,
        "ALL",
        "PSBE 1/4 2",
    )?;
    assert_eq!(rt; kept, Some(Verdict::Yes));
    let less = judge(
        alloc,
        "ALL R8 PSBE 1 0 SFQ PSBE 1/4 1",
        &place,
        "ALL",
        "PSBE 1/4 1",
    )?;
    assert_eq!(rt; less, Some(Verdict::No { step: 2 }));
    Ok(())
}
