// What is written about the text of a scenario.
ghost use Rattle.std.specs.Prelude.{◌≡◌, ◌≤◌, ◌<◌, ◌+◌, ℕ, IfOk, length};
ghost use Rattle.hls_text.specs.Lines.{lines_of};
ghost use Rattle.hls_scenario.specs.Grammar.{IsScenario, IsScenarioText};
ghost use Rattle.hls_sched.specs.GoodKit.{IsGood};
ghost use Rattle.hls_sched.specs.Boxed.{boxed};
ghost use Rattle.hls_manager.specs.Outcomes.{boxes_in};
ghost use Rattle.hls_top.specs.Exchange.{scenario_limit};
ghost use Rattle.hls_offer_words.specs.Table.{IsAtMost};
ghost use Rattle.hls_offer.specs.Replies.{given_depth, status_of, Tells, IsReply};
ghost use Rattle.hls_offer.specs.Inside.Readings.{IsAskable};

use crate::moments::{asked_tick, carry_to, tick_fault};
use crate::telling::put_told;
use hls_core::Core;
use hls_io::Status;
use hls_lang::{Scenario, ScenarioFault, read_scenario};
use hls_offer_text::{put_end, put_head};
use hls_offer_words::{Asked, Question};
use hls_rules::RuleBook;
use hls_sched::{Kit, Scheduler};
use hls_text::next_line;
use hls_top::{cause_word, refusal_line};
use std::alloc::{AllocError, Global};

/// The depth where neither words nor scenario state one.
const USUAL_DEPTH: u8 = 3;

/// What is to be written, and the status that goes with it.
#[derive(Drop)]
pub struct Reply {
    pub status: Status,
    pub bytes: Vec<u8>,
}

/// A scenario, and the text that it was read from.
#[derive(Drop)]
struct Read<'a> {
    text: &'a [u8],
    scenario: Scenario,
}

/// A scenario, and the tick that is asked about.
#[derive(Drop)]
struct Point {
    scenario: Scenario,
    tick: u32,
}

/// How many lines a text has.
fn count_lines(text: &[u8]) -> u32
    requires { length text.now ≤ scenario_limit }
    ensures count { result ≡ length (lines_of text.now) }
    ensures few { result ≤ length text.now }
{
    let mut lines = 0;
    let mut rest = text;
    while let Some((_, more)) = next_line(rest) {
        lines += 1;
        rest = more;
    }
    lines
}

/// The depth where the scenario states none.
fn given_depth(asked: &Asked) -> u8
    requires { IsAtMost 6 asked.now.depth }
    ensures is { result ≡ given_depth asked.now.depth }
    ensures few { result ≤ 6 }
{
    match asked.depth {
        Some(depth) => depth,
        None => USUAL_DEPTH,
    }
}

/// The status, which tells whether a seat is offered.
fn status_of(question: &Question, offers: bool) -> Status
    ensures { result ≡ status_of question.now offers }
{
    match question {
        Question::Offer { .. } | Question::Need { .. } if !offers => Status::Broken,
        _ => Status::Done,
    }
}

/// The answer to a question at a tick of a scenario.
fn tell(
    alloc: Global,
    asked: &Asked,
    point: Point,
    kit: Kit,
    rules: RuleBook,
) -> Result<Reply, AllocError>
    requires scenario { IsScenario point.scenario }
    requires early { point.tick < point.scenario.horizon }
    requires asked { IsAskable asked.now }
    requires good { IsGood (boxed seen) kit }
    ensures { IfOk result (λ reply. Tells asked.now point.scenario (boxes_in kit) point.tick reply.status
        reply.bytes.items) }
{
    let Point { scenario, tick } = point;
    let version = scenario.version;
    let mut core = Core::open(alloc, scenario, given_depth(asked), kit, rules)?;
    carry_to(&mut core, tick)?;
    let mut bytes = Vec::new(alloc);
    put_head(&mut bytes, tick, core.depth())?;
    let offers = put_told(alloc, version, &core, asked, &mut bytes)?;
    put_end(&mut bytes)?;
    let status = status_of(&asked.question, offers);
    Ok(Reply { status, bytes })
}

/// What is to be written about the text of a scenario.
///
/// # Errors
/// Returns `AllocError` for want of memory.
pub fn reply_to(
    alloc: Global,
    asked: &Asked,
    text: &[u8],
    kit: Kit,
    rules: RuleBook,
) -> Result<Reply, AllocError>
    requires within { length text.now ≤ scenario_limit }
    requires asked { IsAskable asked.now }
    requires good { IsGood (boxed seen) kit }
    ensures { IfOk result (λ reply. IsReply asked.now (boxes_in kit) text.now reply.status reply.bytes.items) }
{
    match read_scenario(alloc, text) {
        Ok(scenario) => reply_on(alloc, asked, Read { text, scenario }, kit, rules),
        Err(ScenarioFault::At { line, cause }) => Ok(Reply {
            status: Status::RefusedText,
            bytes: refusal_line(alloc, line, cause_word(cause))?,
        }),
        Err(ScenarioFault::Memory(error)) => Err(error),
    }
}

/// What is to be written about a scenario that was read from a text.
fn reply_on(
    alloc: Global,
    asked: &Asked,
    read: Read<'_>,
    kit: Kit,
    rules: RuleBook,
) -> Result<Reply, AllocError>
    requires read { IsScenarioText read.text.now read.scenario }
    requires within { length read.text.now ≤ scenario_limit }
    requires asked { IsAskable asked.now }
    requires good { IsGood (boxed seen) kit }
    ensures { IfOk result (λ reply. IsReply asked.now (boxes_in kit) read.entry.text.now reply.status
        reply.bytes.items) }
{
    let Read { text, scenario } = read;
    let tick = asked_tick(asked.at, scenario.items.items());
    match tick_fault(&scenario, tick) {
        Some(cause) => Ok(Reply {
            status: Status::RefusedText,
            bytes: refusal_line(alloc, count_lines(text) + 1, cause_word(cause))?,
        }),
        None => tell(alloc, asked, Point { scenario, tick }, kit, rules),
    }
}
