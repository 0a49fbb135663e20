//! The lists for administrators.

ghost use Rattle.std.specs.Prelude.{◌≡◌, ℕ, ◌<◌, map, length, IfOk};
ghost use Rattle.gm_admin.specs.Answers.{status_text, workers_text};
ghost use Rattle.gm_admin.specs.Views.{status_of, worker_of};
ghost use Rattle.gm_conns.specs.ConnTables.{IsOpen, conn};
ghost use Rattle.gm_notes.specs.Lines.{status_rows, worker_rows};
ghost use Rattle.gm_notes.specs.Past.{Past, with_output};
ghost use Rattle.gm_core.specs.Holds.{AreFunctions};
ghost use Rattle.gm_core.specs.Listings.{workers, status_line_of, status_lines, names_of, worker_line_of, worker_lines};

use super::Tables;
use gm_admin::{StatusRow, WorkerRow, write_status, write_workers};
use gm_conns::Conns;
use gm_queues::Functions;
use std::alloc::{AllocError, Global};

/// How many connections can do a function.
fn workers(conns: &Conns, f: u32) -> u32
    ensures { result ≡ workers conns.now f }
{
    conns.able_count(f)
}

/// A function's line of `status`.
fn status_row<'a>(conns: &Conns, functions: &'a Functions, f: u32) -> StatusRow<'a>
    requires { f < length functions.now.names }
    ensures { status_of result ≡ status_line_of conns.now functions.now f }
{
    let counts = functions.counts(f);
    StatusRow {
        name: functions.name(f),
        total: counts.waiting + counts.running,
        running: counts.running,
        workers: workers(conns, f),
    }
}

/// A row for each function, in the order of mention.
fn status_rows<'a>(
    alloc: Global,
    conns: &Conns,
    functions: &'a Functions,
) -> Result<Vec<StatusRow<'a>>, AllocError>
    ensures { IfOk result (λ rows. map status_of rows.items ≡ status_lines conns.now functions.now) }
{
    let mut rows = Vec::new(alloc);
    for f in 0..functions.len() {
        rows.push(status_row(conns, functions, f))?;
    }
    Ok(rows)
}

/// The functions that the connection in a slot can do, in the order added.
fn names_of<'a>(
    alloc: Global,
    conns: &Conns,
    functions: &'a Functions,
    slot: u32,
) -> Result<Vec<&'a [u8]>, AllocError>
    requires open { IsOpen conns.now slot }
    requires able { AreFunctions functions.now.names (conn conns.now slot).abilities }
    ensures { IfOk result (λ names. map (λ name. name.now) names.items ≡ names_of functions.now.names (conn conns.now slot)) }
{
    let mut names = Vec::new(alloc);
    for i in 0..conns.abilities_len(slot) {
        if let Some((f, _)) = conns.able(slot, i) {
            names.push(functions.name(f))?;
        }
    }
    Ok(names)
}

/// A connection's line of `workers`.
fn worker_row<'a>(
    alloc: Global,
    conns: &'a Conns,
    functions: &'a Functions,
    slot: u32,
) -> Result<WorkerRow<'a>, AllocError>
    requires open { IsOpen conns.now slot }
    requires able { AreFunctions functions.now.names (conn conns.now slot).abilities }
    ensures { IfOk result (λ row. worker_of row ≡ worker_line_of conns.now functions.now slot) }
{
    let functions = names_of(alloc, conns, functions, slot)?;
    Ok(WorkerRow {
        slot,
        addr: conns.addr(slot),
        id: conns.id(slot),
        functions,
    })
}

/// A row for each open connection, by slot.
fn worker_rows<'a>(
    alloc: Global,
    conns: &'a Conns,
    functions: &'a Functions,
) -> Result<Vec<WorkerRow<'a>>, AllocError>
    requires { (c : ℕ) → AreFunctions functions.now.names (conn conns.now c).abilities }
    ensures { IfOk result (λ rows. map worker_of rows.items ≡ worker_lines conns.now functions.now) }
{
    let mut rows = Vec::new(alloc);
    for slot in 0..conns.slots() {
        if conns.is_open(slot) {
            rows.push(worker_row(alloc, conns, functions, slot)?)?;
        }
    }
    Ok(rows)
}

impl Tables {
    ghost use Rattle.gm_core.specs.Holds.{IsKept, Keeps, Does};

    /// The answer to `status`.
    fn status_text(&self) -> Result<Vec<u8>, AllocError>
        ensures { IfOk result (λ text. (past : Past) → Keeps self.now past → text.items ≡ status_text (status_rows self.now.config past.notes)) }
    {
        let rows = status_rows(self.alloc, &self.conns, &self.functions)?;
        let mut text = Vec::new(self.alloc);
        write_status(&rows, &mut text)?;
        Ok(text)
    }

    /// The answer to `workers`.
    fn workers_text(&self) -> Result<Vec<u8>, AllocError>
        requires { IsKept self.now }
        ensures { IfOk result (λ text. (past : Past) → Keeps self.now past → text.items ≡ workers_text (worker_rows self.now.config past.notes)) }
    {
        let rows = worker_rows(self.alloc, &self.conns, &self.functions)?;
        let mut text = Vec::new(self.alloc);
        write_workers(&rows, &mut text)?;
        Ok(text)
    }

    /// Every function is listed, with its jobs and workers.
    pub(super) fn list_functions(&mut self, slot: u32) -> Result<(), AllocError>
        requires { IsOpen self.old.conns slot }
        ensures { Does self.old result self.new (λ past. with_output slot (status_text (status_rows self.old.config past.notes)) past) }
    {
        let text = self.status_text()?;
        self.say(slot, text)
    }

    /// Every connection is listed, with its functions.
    pub(super) fn list_connections(&mut self, slot: u32) -> Result<(), AllocError>
        requires open { IsOpen self.old.conns slot }
        requires kept { IsKept self.old }
        ensures { Does self.old result self.new (λ past. with_output slot (workers_text (worker_rows self.old.config past.notes)) past) }
    {
        let text = self.workers_text()?;
        self.say(slot, text)
    }
}
