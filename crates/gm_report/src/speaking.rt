//! Messages on standard error while a server runs and when it ends: a thread of its own writes them, so that no other
//! waits for their reader.

use crate::error::ServeError;
use crate::levels::Levels;
use crate::notices::{GRAB_JOB_ALL, Notices, Remark, TROUBLES, Trouble};
use crate::ready::Report;
use crate::summary::Summary;
use gm_time::{PAUSE_MS, SAYING_TIME_MS, now_ms};
use std::alloc::{AllocError, Global};
use std::io::Error;
use std::net::SocketAddr;
use std::sync::{Arc, Condvar, Mutex, Wait};
use std::thread;
use std::thread::Threads;
use std::time::{Clock, Duration};

/// Where other threads leave the notices to write.
#[derive(Drop)]
pub struct Speaker {
    remarks: Mutex<Notices>,
    /// The thread that speaks waits here for what it is to say, and the program's end for that thread.
    changed: Condvar,
    levels: Levels,
}

impl Speaker {
    /// Starts the thread that speaks, of a server with this many slots: with the journal's levels before what it says,
    /// or without. If it can't be made, nothing is said before the end.
    pub fn start<R: Threads + Wait + Clock + Eprint + Copy + Send + 'static>(
        rt: &R,
        alloc: Global,
        slots: u32,
        levels: Levels,
    ) -> Result<Arc<Speaker, Global>, AllocError> {
        let speaker = Arc::new(
            alloc,
            Speaker {
                remarks: Mutex::new(Notices::new()),
                changed: Condvar::new(),
                levels,
            },
        )?;
        let same = Arc::try_clone(&speaker)?;
        let own_rt = *rt;
        let made = thread::spawn(rt, move || same.run(&own_rt, slots));
        speaker.remarks.lock(rt).has_thread = made.is_ok();
        Ok(speaker)
    }

    /// There is trouble, for this error of the system's.
    pub fn remark(&self, rt: &impl Wait, trouble: Trouble, error: i32) {
        if self.remarks.lock(rt).meet(trouble, error) {
            self.changed.notify_all();
        }
    }

    /// A connection is served, so that none of what keeps connections out is a trouble any more.
    pub fn clear(&self, rt: &impl Wait) {
        self.remarks.lock(rt).clear();
    }

    /// Systemd could be told how the server is.
    pub fn clear_notify(&self, rt: &impl Wait) {
        self.remarks.lock(rt).troubles[Trouble::Notify as usize].clear();
    }

    /// A packet of this type came from this peer, which isn't a request's.
    pub fn remark_type(&self, rt: &(impl Wait + Clock), kind: u32, peer: Option<SocketAddr>) {
        let now = if kind == GRAB_JOB_ALL { now_ms(rt) } else { 0 };
        let mut remarks = self.remarks.lock(rt);
        remarks.not_served = remarks.not_served.saturating_add(1);
        if remarks.note(kind, peer) {
            remarks.begin_grabs(now);
            self.changed.notify_all();
        } else if kind == GRAB_JOB_ALL && remarks.count_grab(now) {
            self.changed.notify_all();
        }
    }

    /// A connection had a faulty stream.
    pub fn count_faulty(&self, rt: &impl Wait) {
        let mut remarks = self.remarks.lock(rt);
        remarks.faulty = remarks.faulty.saturating_add(1);
    }

    /// A connection's peer vanished.
    pub fn count_timed_out(&self, rt: &impl Wait) {
        let mut remarks = self.remarks.lock(rt);
        remarks.timed_out = remarks.timed_out.saturating_add(1);
    }

    /// The status of a server that has this many connections open, of this many slots.
    pub(crate) fn report(&self, rt: &impl Wait, connections: u64, slots: u32) -> Report {
        let remarks = self.remarks.lock(rt);
        Report {
            connections,
            slots,
            refused: remarks.refused,
            cut: remarks.cut,
            not_served: remarks.not_served,
        }
    }

    /// The server ended so. It waits until that is said, but not for long.
    pub fn remark_end<R: Wait + Clock + Eprint>(
        &self,
        rt: &R,
        outcome: Result<Summary, ServeError>,
    ) {
        let mut remarks = self.remarks.lock(rt);
        remarks.outcome = Some(outcome);
        if remarks.has_thread {
            self.changed.notify_all();
            let time = Duration::from_millis(SAYING_TIME_MS);
            let _ = self
                .changed
                .wait_timeout_while(rt, remarks, time, |remarks| !remarks.is_end_said);
        } else {
            say_end(rt, self.levels, &outcome, &remarks);
        }
    }

    /// Waits until there is something to be said, and takes it.
    fn next(&self, rt: &impl Wait) -> Notices {
        let mut remarks = self
            .changed
            .wait_while(rt, self.remarks.lock(rt), |remarks| {
                !remarks.is_due && remarks.outcome.is_none()
            });
        let due = *remarks;
        remarks.take();
        due
    }

    /// Waits for a while, or until the server ends.
    fn pause(&self, rt: &(impl Wait + Clock)) {
        let time = Duration::from_millis(PAUSE_MS);
        let _ = self
            .changed
            .wait_timeout_while(rt, self.remarks.lock(rt), time, |remarks| {
                remarks.outcome.is_none()
            });
    }

    /// Says what the others leave here, until the server ends.
    fn run(&self, rt: &(impl Wait + Clock + Eprint), slots: u32) {
        for _ in rt.forever() {
            let remarks = self.next(rt);
            say_due(rt, self.levels.warning(), &remarks, slots);
            if let Some(outcome) = &remarks.outcome {
                say_end(rt, self.levels, outcome, &remarks);
                self.remarks.lock(rt).is_end_said = true;
                self.changed.notify_all();
                break;
            }
            self.pause(rt);
        }
    }
}

/// Writes the notices that are due. If standard error fails, they are lost.
fn say_due(rt: &impl Eprint, level: &'static str, remarks: &Notices, slots: u32) {
    for (kind, peer) in remarks.due_types() {
        say_type(rt, level, *kind, peer);
    }
    if remarks.due_grabs > 0 {
        let count = remarks.due_grabs;
        let _ = eprintln!(rt;
            "{level}gmd: packets of type 39 (GRAB_JOB_ALL) came again, which gmd doesn't serve: {count}{GRAB_CURE}"
        );
    }
    say_troubles(rt, level, &remarks.troubles, slots);
}

/// The advice for a worker that grabs by GRAB_JOB_ALL.
const GRAB_CURE: &str =
    ": start gmd with --as-gearmand, or the worker with the option GEARMAN_WORKER_GRAB_UNIQ";

/// Says that a packet of this type came, which is no request.
fn say_type(rt: &impl Eprint, level: &'static str, kind: u32, peer: &Option<SocketAddr>) {
    let name = match kind {
        35 => " (SUBMIT_JOB_SCHED)",
        36 => " (SUBMIT_JOB_EPOCH)",
        37 => " (SUBMIT_REDUCE_JOB)",
        38 => " (SUBMIT_REDUCE_JOB_BACKGROUND)",
        39 => " (GRAB_JOB_ALL)",
        41 => " (GET_STATUS_UNIQUE)",
        _ => "",
    };
    let cure = if kind == GRAB_JOB_ALL { GRAB_CURE } else { "" };
    let _ = match peer {
        Some(peer) => {
            eprintln!(rt;
                "{level}gmd: {peer} sent a packet of type {kind}{name}, which gmd doesn't serve{cure}"
            )
        }
        None => {
            eprintln!(rt;
                "{level}gmd: a packet of type {kind}{name} came, which gmd doesn't serve{cure}"
            )
        }
    };
}

/// Says which troubles are due.
fn say_troubles(rt: &impl Eprint, level: &'static str, troubles: &[Remark; TROUBLES], slots: u32) {
    for (at, remark) in troubles.iter().enumerate() {
        if let Some((count, error)) = remark.due() {
            say_trouble(rt, level, at, count, error, slots);
        }
    }
}

/// Says one, by its place.
fn say_trouble(
    rt: &impl Eprint,
    level: &'static str,
    at: usize,
    count: u64,
    error: i32,
    slots: u32,
) {
    let error = Error::from_raw_os_error(error);
    let _ = match at {
        0 => eprintln!(rt;
            "{level}gmd: all {slots} slots are taken, connections are refused: {count}"
        ),
        1 => eprintln!(rt; "{level}gmd: out of memory, connections are refused: {count}"),
        2 => eprintln!(rt; "{level}gmd: out of threads, connections are refused: {count}"),
        3 => eprintln!(rt;
            "{level}gmd: can't wait for more, connections are refused: {count}: {error}"
        ),
        4 => eprintln!(rt; "{level}gmd: out of memory, connections are cut: {count}"),
        5 => eprintln!(rt; "{level}gmd: out of file descriptors, connections wait: {error}"),
        6 => eprintln!(rt; "{level}gmd: connections wait: {error}"),
        _ => eprintln!(rt; "{level}gmd: can't tell systemd how it is: {error}"),
    };
}

/// Says how the server ended.
fn say_end(
    rt: &impl Eprint,
    levels: Levels,
    outcome: &Result<Summary, ServeError>,
    remarks: &Notices,
) {
    let Notices {
        refused,
        cut,
        faulty,
        timed_out,
        ..
    } = *remarks;
    if refused.max(cut).max(faulty).max(timed_out) > 0 {
        let _ = eprintln!(rt;
            "gmd: connections refused: {refused}, cut: {cut}, with faults: {faulty}, timed out: {timed_out}"
        );
    }
    match outcome {
        Ok(
            Summary {
                connections,
                entries,
            },
        ) => {
            let _ = eprintln!(rt; "gmd: ended, connections served: {connections}");
            if *entries > 0 {
                let _ = eprintln!(rt;
                    "gmd: the tape agrees with what the connections were told, entries: {entries}"
                );
            }
        }
        Err(error) => {
            let level = levels.error();
            let _ = eprintln!(rt; "{level}gmd: {error}");
        }
    }
}
