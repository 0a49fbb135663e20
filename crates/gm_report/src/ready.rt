//! How a server's status is reported: that it is ready, how many slots it uses, how many connections it refused and
//! cut, and how many packets it didn't serve.

use crate::notices::Trouble;
use crate::speaking::Speaker;
use crate::systemd::{Address, notify_address, send_message};
use std::env::Env;
use std::io;
use std::io::{Cursor, Write};
use std::sync::Wait;

/// How many bytes the status line has at most.
const STATUS: usize = 192;

/// The status of a server.
#[derive(Clone, Copy, Debug, PartialEq, Eq)]
pub(crate) struct Report {
    /// How many connections are open.
    pub(crate) connections: u64,
    /// How many slots there are.
    pub(crate) slots: u32,
    /// How many connections were refused since the start.
    pub(crate) refused: u64,
    /// How many were cut since then as there was no memory.
    pub(crate) cut: u64,
    /// How many packets came since then that aren't requests.
    pub(crate) not_served: u64,
}

/// Reports a server's state: to an output that it listens, and to systemd that it is ready (sd_notify(3)) and its
/// status.
#[derive(Drop)]
pub struct Announcer<'w, W> {
    output: &'w mut W,
    /// Whether the output took the announcement.
    pub is_well: bool,
    /// The server serves what was written for gearmand unchanged.
    as_gearmand: bool,
    /// Where systemd listens, if it gets reports.
    systemd: io::Result<Option<Address>>,
    /// Whether systemd knows that the server is ready.
    is_ready: bool,
    /// The report that it got last.
    told: Option<Report>,
}

impl<'w, W: Write> Announcer<'w, W> {
    /// Tells only this output.
    pub fn new(output: &'w mut W) -> Announcer<'w, W> {
        Announcer {
            output,
            is_well: true,
            as_gearmand: false,
            systemd: Ok(None),
            is_ready: false,
            told: None,
        }
    }

    /// Tells systemd too, if the environment asks for that.
    pub fn with_systemd(self, rt: &impl Env) -> Announcer<'w, W> {
        let mut announcer = self;
        announcer.systemd = notify_address(rt);
        announcer
    }

    /// Says with the announcement whether the server serves what was written for gearmand unchanged.
    pub fn with_as_gearmand(self, as_gearmand: bool) -> Announcer<'w, W> {
        let mut announcer = self;
        announcer.as_gearmand = as_gearmand;
        announcer
    }

    /// Announces that the server's book is open, its threads are there, and it is about to take connections, and says
    /// whether the output took that. If not, the server is to end at once.
    pub fn announce(&mut self, rt: &impl Wait, speaker: &Speaker) -> bool {
        let line: &[u8] = if self.as_gearmand {
            b"gmd: listening, as gearmand\n"
        } else {
            b"gmd: listening\n"
        };
        self.is_well = self.output.write_all(line).is_ok() && self.output.flush().is_ok();
        if self.is_well {
            self.tell_ready(rt, speaker);
        }
        self.is_well
    }

    /// Sends systemd a message, if it gets reports, and says whether that is done. A failure is reported as a trouble.
    fn send(&self, rt: &impl Wait, speaker: &Speaker, message: &[u8]) -> bool {
        let outcome = match &self.systemd {
            Ok(Some(address)) => send_message(address, message),
            Ok(None) => return true,
            Err(error) => Err(io::Error::from_raw_os_error(error.raw_os_error().unwrap_or(0))),
        };
        match outcome {
            Ok(()) => {
                speaker.clear_notify(rt);
                true
            }
            Err(error) => {
                speaker.remark(rt, Trouble::Notify, error.raw_os_error().unwrap_or(0));
                false
            }
        }
    }

    /// Tells systemd that the service is ready. If that fails it can serve without, and is tried again.
    fn tell_ready(&mut self, rt: &impl Wait, speaker: &Speaker) {
        self.is_ready = self.send(rt, speaker, b"READY=1");
    }

    /// Reports the service's status to systemd, unless it is the one that was reported last. The server has this many
    /// connections open, of this many slots.
    pub fn tell(&mut self, rt: &impl Wait, speaker: &Speaker, connections: u64, slots: u32) {
        let report = speaker.report(rt, connections, slots);
        if !self.is_ready {
            self.tell_ready(rt, speaker);
        }
        if self.told == Some(report) {
            return;
        }
        let Report {
            refused,
            cut,
            not_served,
            ..
        } = report;
        let mut text = Cursor::new([0; STATUS]);
        // It fits.
        let _ = write!(
            text,
            "STATUS=slots used: {connections} of {slots}, connections refused: {refused}, cut: {cut}, packets not served: {not_served}"
        );
        let len = text.position() as usize;
        let text = text.into_inner();
        if self.send(rt, speaker, &text[..len.min(STATUS)]) {
            self.told = Some(report);
        }
    }
}
