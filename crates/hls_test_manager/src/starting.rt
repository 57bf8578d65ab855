// The boxes, the rules and the commands.
ghost use Rattle.hls_guarantee.specs.Limits.{IsValid};
ghost use Rattle.hls_sched.specs.GoodKit.{IsGood};
ghost use Rattle.hls_sched.specs.Boxed.{boxed};

use crate::carrying::carry_all;
use crate::going_on::settled;
use crate::showing::shown;
use hls_chron::Kind;
use hls_edf::Edf;
use hls_fp::Fp;
use hls_guarantee::Guarantee;
use hls_join::Join;
use hls_lang::read_scenario;
use hls_rr::Rr;
use hls_rules::{RULES, Rule, RuleBook};
use hls_rules2::answer_of;
use hls_sched::{Kit, Scheduler};
use hls_text::put;
use hls_tree::Tree;
use std::alloc::{AllocError, Global};

/// Loads, admissions, moves and withdrawals, done and refused.
const SCENARIO: &str = "hls 1\nhorizon 1\n\
    at 0 load root fp on cpu as ALL\n\
    at 0 load e edf on root prio 0 as ALL\n\
    at 0 load r rr 2 on root prio 1 as NULL\n\
    at 0 load j join on e res 2 10 hard as RESBH 2 10 , r turn as NULL\n\
    at 0 thread a on j sole as RESBS 2 10\n\
    at 0 thread b on e res 3 10 hard as RESCS 3 17\n\
    at 0 thread c on r turn as NULL\n\
    at 0 thread c on r turn as NULL\n\
    at 0 thread d on r turn as RESBS 1 9\n\
    at 0 load k edf on r turn as RESBS 1 9\n\
    at 0 move b to r turn as NULL\n\
    at 0 move c to e res 9 10 hard as NULL\n\
    at 0 move e to root prio 2 as ALL\n\
    at 0 move e to r turn as NULL\n\
    at 0 move r to root prio 2 as NULL\n\
    at 0 unload e\n\
    at 0 end a\n\
    at 0 unload j\n\
    at 0 load m join on root prio 3 as NULL , r turn as NULL\n\
    at 0 load k rr 1 on r turn as NULL\n\
    at 0 load m rr 1 on r turn as NULL\n\
    at 0 end c\n";

/// What the commands come to, with these boxes and rules.
fn trial_by_rules(alloc: Global, kit: Kit, rules: &RuleBook) -> Result<Vec<u8>, AllocError>
    requires { IsGood (boxed seen) kit }
{
    let mut kit = kit;
    match read_scenario(alloc, SCENARIO.as_bytes()) {
        Ok(scenario) => {
            let mut tree = Tree::new(alloc, scenario.horizon);
            let mut text = Vec::new(alloc);
            let items = scenario.items.items();
            carry_all(alloc, &mut tree, &mut kit, rules, items, &mut text)?;
            let left = shown(alloc, &tree, &kit)?;
            put(&mut text, left.as_bytes())?;
            Ok(text)
        }
        Err(_) => Err(AllocError),
    }
}

/// What the commands come to, with these boxes, and a scenario on a core, with the others.
fn trial_by_boxes(alloc: Global, kit: Kit, others: Kit) -> Result<Vec<u8>, AllocError>
    requires kit { IsGood (boxed seen) kit }
    requires others { IsGood (boxed seen) others }
{
    let mut rules = Vec::new(alloc);
    for name in RULES {
        let step = Box::new(
            alloc,
            move |have: Guarantee, want: Guarantee| -> Option<Guarantee>
                requires have { IsValid have }
                requires want { IsValid want }
            { answer_of(name, have, want) },
        )?;
        rules.push(Rule::new(name, step))?;
    }
    let book = RuleBook::new(rules);
    let mut text = trial_by_rules(alloc, kit, &book)?;
    let report = settled(alloc, others, book)?;
    put(&mut text, &report)?;
    Ok(text)
}

/// A kit that has no boxes.
fn empty_kit(alloc: Global) -> Kit
    ensures { IsGood (boxed seen) result }
{
    Kit {
        fp: Vec::new(alloc),
        edf: Vec::new(alloc),
        sfq: Vec::new(alloc),
        rr: Vec::new(alloc),
        wheel: Vec::new(alloc),
        join: Vec::new(alloc),
        used: [0; 6],
    }
}

/// What the commands come to, and the report of a scenario on a core.
///
/// # Errors
///
/// Want of memory, but for the first time at a command.
pub fn trial(alloc: Global) -> Result<Vec<u8>, AllocError> {
    let mut kit = empty_kit(alloc);
    kit.put(Kind::Fp, Box::new(alloc, Fp::blank(alloc))?)?;
    kit.put(Kind::Edf, Box::new(alloc, Edf::blank(alloc))?)?;
    kit.put(Kind::Edf, Box::new(alloc, Edf::blank(alloc))?)?;
    kit.put(Kind::Rr, Box::new(alloc, Rr::blank(alloc))?)?;
    kit.put(Kind::Rr, Box::new(alloc, Rr::blank(alloc))?)?;
    kit.put(Kind::Join, Box::new(alloc, Join::blank(alloc))?)?;
    let mut others = empty_kit(alloc);
    others.put(Kind::Fp, Box::new(alloc, Fp::blank(alloc))?)?;
    others.put(Kind::Edf, Box::new(alloc, Edf::blank(alloc))?)?;
    trial_by_boxes(alloc, kit, others)
}
