//! The text of a derivation.

ghost use Rattle.std.specs.Prelude.{◌≡◌, ◌++◌, codes, decimal, take, length, OnOk, OnErr};
ghost use Rattle.hls_guarantee.specs.Limits.{IsValid};
ghost use Rattle.hls_guarantee.specs.Spelling.{spelling};
ghost use Rattle.hls_derive.specs.Derivation.{AreValid, PortFits, IsWithinGrammar};
ghost use Rattle.hls_derive.specs.DerivationText.{rule_text, scheduler_text, step_text, sched_text};
ghost use Rattle.hls_derive.specs.DerivationText.{steps_text, derivation_text};

use crate::{Derivation, SchedStep, Step};
use hls_chron::Kind;
use hls_guarantee::{Guarantee, RuleName, write_guarantee};
use itoa::Buffer;
use std::alloc::AllocError;

/// Appends the text of a derivation.
///
/// # Errors
/// Returns `AllocError` for want of memory; `out` is as before then.
pub fn write_derivation(d: &Derivation, out: &mut Vec<u8>) -> Result<(), AllocError>
    requires { IsWithinGrammar d.now }
    ensures ok { OnOk result (out.new.items ≡ out.old.items ++ derivation_text d.now) }
    ensures err { OnErr result (out.new.items ≡ out.old.items) }
{
    let len = out.len();
    match append(d, out) {
        Ok(()) => Ok(()),
        Err(error) => {
            out.truncate(len);
            Err(error)
        }
    }
}

/// Appends the text, or as much of it as there is memory for.
#[tactic(auto, unfolding(crate::specs::DerivationText::derivation_text))]
fn append(d: &Derivation, out: &mut Vec<u8>) -> Result<(), AllocError>
    requires { IsWithinGrammar d.now }
    ensures ok { OnOk result (out.new.items ≡ out.old.items ++ derivation_text d.now) }
    ensures err { OnErr result (take (length out.old.items) out.new.items ≡ out.old.items) }
{
    write_guarantee(&d.from, out)?;
    append_steps(d.before.items(), out)?;
    append_sched(&d.sched, out)?;
    append_steps(d.after.items(), out)
}

fn append_steps(steps: &[Step], out: &mut Vec<u8>) -> Result<(), AllocError>
    requires { AreValid steps.now }
    ensures ok { OnOk result (out.new.items ≡ out.old.items ++ steps_text steps.now) }
    ensures err { OnErr result (take (length out.old.items) out.new.items ≡ out.old.items) }
{
    for step in steps {
        append_step(step, out)?;
    }
    Ok(())
}

fn append_step(step: &Step, out: &mut Vec<u8>) -> Result<(), AllocError>
    requires { IsValid step.now.to }
    ensures ok { OnOk result (out.new.items ≡ out.old.items ++ step_text step.now) }
    ensures err { OnErr result (take (length out.old.items) out.new.items ≡ out.old.items) }
{
    out.extend_from_slice(b" ")?;
    out.extend_from_slice(rule_word(step.rule))?;
    append_reached(&step.to, out)
}

fn append_sched(step: &SchedStep, out: &mut Vec<u8>) -> Result<(), AllocError>
    requires { IsValid step.now.to }
    ensures ok { OnOk result (out.new.items ≡ out.old.items ++ sched_text step.now) }
    ensures err { OnErr result (take (length out.old.items) out.new.items ≡ out.old.items) }
{
    out.extend_from_slice(b" ")?;
    append_scheduler(step.kind, step.port, out)?;
    append_reached(&step.to, out)
}

fn append_scheduler(kind: Kind, port: u8, out: &mut Vec<u8>) -> Result<(), AllocError>
    ensures ok { OnOk result (out.new.items ≡ out.old.items ++ scheduler_text kind port) }
    ensures err { OnErr result (take (length out.old.items) out.new.items ≡ out.old.items) }
{
    match kind {
        Kind::Cpu => out.extend_from_slice(b"CPU"),
        Kind::Fp => out.extend_from_slice(b"FP"),
        Kind::Edf => out.extend_from_slice(b"EDF"),
        Kind::Sfq => out.extend_from_slice(b"SFQ"),
        Kind::Rr => out.extend_from_slice(b"RR"),
        Kind::Wheel => out.extend_from_slice(b"WHEEL"),
        Kind::Join => append_join(port, out),
    }
}

fn append_join(port: u8, out: &mut Vec<u8>) -> Result<(), AllocError>
    ensures ok { OnOk result (out.new.items ≡ out.old.items ++ (codes "JOIN " ++ decimal port)) }
    ensures err { OnErr result (take (length out.old.items) out.new.items ≡ out.old.items) }
{
    let mut buffer = Buffer::new();
    out.extend_from_slice(b"JOIN ")?;
    out.extend_from_slice(buffer.format(port).as_bytes())
}

/// A space and the guarantee reached.
fn append_reached(to: &Guarantee, out: &mut Vec<u8>) -> Result<(), AllocError>
    requires { IsValid to.now }
    ensures ok { OnOk result (out.new.items ≡ out.old.items ++ (codes " " ++ spelling to.now)) }
    ensures err { OnErr result (take (length out.old.items) out.new.items ≡ out.old.items) }
{
    out.extend_from_slice(b" ")?;
    write_guarantee(to, out)
}

fn rule_word(rule: RuleName) -> &'static [u8]
    ensures { result.now ≡ rule_text rule }
{
    match rule {
        RuleName::R1 => b"R1",
        RuleName::R2 => b"R2",
        RuleName::R3 => b"R3",
        RuleName::R4 => b"R4",
        RuleName::R5 => b"R5",
        RuleName::R6 => b"R6",
        RuleName::R7 => b"R7",
        RuleName::R8 => b"R8",
        RuleName::R9 => b"R9",
        RuleName::R10 => b"R10",
        RuleName::R11 => b"R11",
    }
}
