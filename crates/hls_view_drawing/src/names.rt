// How many different names rows end in.
ghost use Rattle.std.specs.Prelude.{◌≡◌, ◌++◌, OnOk, IfOk, flat_map};
ghost use Rattle.hls_view_drawing.specs.Names as told;

use crate::rows::{is_leaf, last_label};
use hls_chron::{List, Name};
use hls_view_tale::{Label, firsts};
use std::alloc::{AllocError, Global};

fn put_name(names: &mut Vec<Name>, row: &[Label]) -> Result<(), AllocError>
    ensures { OnOk result (names.new.items ≡ names.old.items ++ told.end_name row.now) }
{
    if let Some(label) = last_label(row) {
        names.push(label.name)?;
    }
    Ok(())
}

fn put_thread(names: &mut Vec<Name>, row: &[Label]) -> Result<(), AllocError>
    ensures { OnOk result (names.new.items ≡ names.old.items ++ told.thread_name row.now) }
{
    if is_leaf(row) {
        put_name(names, row)
    } else {
        Ok(())
    }
}

fn put_scheduler(names: &mut Vec<Name>, row: &[Label]) -> Result<(), AllocError>
    ensures { OnOk result (names.new.items ≡ names.old.items ++ told.scheduler_name row.now) }
{
    if is_leaf(row) {
        Ok(())
    } else {
        put_name(names, row)
    }
}

fn thread_names(alloc: Global, rows: &[List<Label>]) -> Result<Vec<Name>, AllocError>
    ensures { IfOk result (λ names. names.items ≡ flat_map told.thread_name rows.now) }
{
    let mut names = Vec::new(alloc);
    for row in rows {
        put_thread(&mut names, row.items())?;
    }
    Ok(names)
}

fn scheduler_names(alloc: Global, rows: &[List<Label>]) -> Result<Vec<Name>, AllocError>
    ensures { IfOk result (λ names. names.items ≡ flat_map told.scheduler_name rows.now) }
{
    let mut names = Vec::new(alloc);
    for row in rows {
        put_scheduler(&mut names, row.items())?;
    }
    Ok(names)
}

/// How many threads have a row.
///
/// # Errors
/// Returns `AllocError` for want of memory.
pub fn threads_among(alloc: Global, rows: &[List<Label>]) -> Result<u64, AllocError>
    ensures { IfOk result (λ count. count ≡ told.threads_among rows.now) }
{
    let names = thread_names(alloc, rows)?;
    Ok(firsts(alloc, &names)?.len() as u64)
}

/// How many schedulers have a row.
///
/// # Errors
/// Returns `AllocError` for want of memory.
pub fn schedulers_among(alloc: Global, rows: &[List<Label>]) -> Result<u64, AllocError>
    ensures { IfOk result (λ count. count ≡ told.schedulers_among rows.now) }
{
    let names = scheduler_names(alloc, rows)?;
    Ok(firsts(alloc, &names)?.len() as u64)
}
