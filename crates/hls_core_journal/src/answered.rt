// The commands of a scenario with their answers.
ghost use Rattle.std.specs.Prelude.{◌≡◌, ◌-◌, ◌++◌, IfOk, OnOk, length, option_to_list, reverse};
ghost use Rattle.hls_core_journal.specs.Told.{answered_by};

use hls_chron::List;
use hls_report_text::{Answer, Answered};
use hls_scenario::Item;
use std::alloc::{AllocError, Global};

/// How many places that are vacant there may be before their memory is given back.
const SPARE: usize = 1024;

/// Takes the last item away. The memory of those that were taken is given back now and then.
fn take_last<T: Drop>(items: &mut Vec<T>) -> Option<T>
    ensures items { items.old.items ≡ items.new.items ++ option_to_list result }
    ensures fewer { length items.new.items ≡ length items.old.items - 1 }
{
    let last = items.pop();
    if items.capacity().saturating_sub(items.len()) > SPARE {
        items.shrink_to_fit();
    }
    last
}

/// Puts the last command and the last answer that are left behind the others.
fn move_last(
    items: &mut Vec<Item>,
    answers: &mut Vec<Answer>,
    all: &mut Vec<Answered>,
) -> Result<(), AllocError>
    requires { length items.old.items ≡ length answers.old.items }
    ensures told { OnOk result (answered_by items.new.items answers.new.items ++ reverse all.new.items
        ≡ answered_by items.old.items answers.old.items ++ reverse all.old.items) }
    ensures items { length items.new.items ≡ length items.old.items - 1 }
    ensures answers { length answers.new.items ≡ length answers.old.items - 1 }
{
    if let (Some(item), Some(answer)) = (take_last(items), take_last(answers)) {
        all.push(Answered {
            tick: item.tick,
            command: item.command,
            answer,
        })?;
    }
    Ok(())
}

/// The commands that have an answer, with it, the last first.
fn answered_from_last(
    alloc: Global,
    items: Vec<Item>,
    answers: Vec<Answer>,
) -> Result<Vec<Answered>, AllocError>
    ensures { IfOk result (λ all. reverse all.items ≡ answered_by items.items answers.items) }
{
    let count = items.len().min(answers.len());
    let mut items_left = items;
    items_left.truncate(count);
    let mut answers_left = answers;
    answers_left.truncate(count);
    let mut all = Vec::with_capacity(alloc, count)?;
    for _at in 0..count {
        move_last(&mut items_left, &mut answers_left, &mut all)?;
    }
    Ok(all)
}

/// The commands with their answers. The memory of both lists is given back while theirs is taken.
pub fn answered(
    alloc: Global,
    items: List<Item>,
    answers: Vec<Answer>,
) -> Result<Vec<Answered>, AllocError>
    ensures { IfOk result (λ all. all.items ≡ answered_by items answers.items) }
{
    let mut all = answered_from_last(alloc, items.into_items(), answers)?;
    all.reverse();
    Ok(all)
}
