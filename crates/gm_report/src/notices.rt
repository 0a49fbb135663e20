//! The notices for operators: a trouble is reported once, and again only after it was over; each type of packet
//! that `gmd` doesn't serve once, for the first 64 such types.

ghost use Rattle.std.specs.Prelude.{◌≡◌, ◌++◌, ◌∷◌, [], ◌&&◌, not, true, false, take};
ghost use Rattle.std.specs.Prelude.{◌-◌, nat_lt, nat_le};
ghost use Rattle.std.specs.List.{list_any};
ghost use Rattle.gm_report.specs.Notices.{met, is_well, cleared, spoken, is_of_type};

use crate::error::ServeError;
use crate::summary::Summary;
use gm_time::SAID_AGAIN_MS;
use std::net::SocketAddr;

/// How many kinds of trouble there are.
pub(crate) const TROUBLES: usize = 8;

/// How many types of packets that aren't requests are reported. No peer can fill standard error with more.
const MOST_TYPES: usize = 64;

/// The packet type of GRAB_JOB_ALL, which is served only with `--as-gearmand`.
pub(crate) const GRAB_JOB_ALL: u32 = 39;

/// Why a connection isn't served.
#[derive(Clone, Copy, Debug, PartialEq, Eq)]
pub enum Trouble {
    /// Each slot has a connection, so that it is refused.
    Slots,
    /// There is no memory for it, so that it is refused.
    Memory,
    /// No thread can be made for it, so that it is refused.
    Threads,
    /// The system can't report what comes from it, so that it is refused.
    Events,
    /// There was no memory to serve it, so that it was cut.
    Cut,
    /// The process or the system has no descriptor for it, so that it waits.
    Descriptors,
    /// The system doesn't hand it over for another reason, so that it waits.
    Accept,
    /// It is served: systemd can't be told the server's status.
    Notify,
}

/// A trouble is reported once, and again only after it was well in between.
#[derive(Clone, Copy, PartialEq, Eq)]
enum Notice {
    Well,
    /// It is to be reported.
    Due,
    Said,
}

/// A trouble, and whether it is to be reported or was.
#[derive(Clone, Copy)]
pub(crate) struct Remark {
    notice: Notice,
    /// How often it was met since it was reported.
    count: u64,
    /// The system's error.
    error: i32,
}

impl Remark {
    /// The trouble is met, for this error of the system's. The answer is whether that is to be reported.
    fn meet(&mut self, error: i32) -> bool
        ensures due { result ≡ is_well self.old.notice }
        ensures notice { self.new.notice ≡ met self.old.notice }
        ensures error { self.new.error ≡ error }
    {
        self.count = self.count.saturating_add(1);
        self.error = error;
        match self.notice {
            Notice::Well => {
                self.notice = Notice::Due;
                true
            }
            Notice::Due | Notice::Said => false,
        }
    }

    /// The trouble is over: if it comes again, it is reported again.
    pub(crate) fn clear(&mut self)
        ensures { self.new.notice ≡ cleared self.old.notice }
    {
        match self.notice {
            Notice::Said => self.notice = Notice::Well,
            Notice::Well | Notice::Due => {}
        }
    }

    /// It is reported, if it is due.
    fn say(&mut self)
        ensures { self.new.notice ≡ spoken self.old.notice }
    {
        match self.notice {
            Notice::Due => {
                self.notice = Notice::Said;
                self.count = 0;
            }
            Notice::Well | Notice::Said => {}
        }
    }

    /// How often it was met, and the system's error, if it is to be reported.
    pub(crate) fn due(&self) -> Option<(u64, i32)> {
        match self.notice {
            Notice::Due => Some((self.count, self.error)),
            Notice::Well | Notice::Said => None,
        }
    }
}

/// The notices for operators: those to write, and those that were written.
#[derive(Clone, Copy)]
pub(crate) struct Notices {
    pub(crate) troubles: [Remark; TROUBLES],
    // How many connections were refused since the start, cut, had a faulty stream, and had a peer that vanished.
    pub(crate) refused: u64,
    pub(crate) cut: u64,
    pub(crate) faulty: u64,
    pub(crate) timed_out: u64,
    /// How many packets came that aren't requests.
    pub(crate) not_served: u64,
    /// The types of packets that came and aren't requests: the first `type_count` are types that came, each with the
    /// peer that sent the first such packet.
    types: [(u32, Option<SocketAddr>); MOST_TYPES],
    type_count: usize,
    /// How many of them were reported.
    said_types: usize,
    /// How many grabs of the type GRAB_JOB_ALL came since that was last reported, and when it was, in milliseconds.
    grabs: u64,
    grabs_said_ms: u64,
    /// How many of these are to be reported.
    pub(crate) due_grabs: u64,
    /// There is something to be reported.
    pub(crate) is_due: bool,
    /// How the server ended, and whether that was reported.
    pub(crate) outcome: Option<Result<Summary, ServeError>>,
    pub(crate) is_end_said: bool,
    /// There is a thread that speaks.
    pub(crate) has_thread: bool,
}

impl Notices {
    pub(crate) fn new() -> Notices {
        let well = Remark {
            notice: Notice::Well,
            count: 0,
            error: 0,
        };
        Notices {
            troubles: [well; TROUBLES],
            refused: 0,
            cut: 0,
            faulty: 0,
            timed_out: 0,
            not_served: 0,
            types: [(0, None); MOST_TYPES],
            type_count: 0,
            said_types: 0,
            grabs: 0,
            grabs_said_ms: 0,
            due_grabs: 0,
            is_due: false,
            outcome: None,
            is_end_said: false,
            has_thread: false,
        }
    }

    /// There is trouble, for this error of the system's. The answer is whether that is to be reported.
    pub(crate) fn meet(&mut self, trouble: Trouble, error: i32) -> bool {
        match trouble {
            Trouble::Slots | Trouble::Memory | Trouble::Threads | Trouble::Events => {
                self.refused = self.refused.saturating_add(1);
            }
            Trouble::Cut => self.cut = self.cut.saturating_add(1),
            Trouble::Descriptors | Trouble::Accept | Trouble::Notify => {}
        }
        let is_due = self.troubles[trouble as usize].meet(error);
        self.is_due = self.is_due || is_due;
        is_due
    }

    /// A connection is served, so that none of what keeps connections out is a trouble any more.
    pub(crate) fn clear(&mut self) {
        for remark in &mut self.troubles[..Trouble::Notify as usize] {
            remark.clear();
        }
    }

    /// Whether packets of this type came before.
    fn is_noted(&self, kind: u32) -> bool
        ensures { result ≡ list_any (is_of_type kind) (take self.now.type_count self.now.types) }
    {
        self.types
            .iter()
            .take(self.type_count)
            .any(|one| one.0 == kind)
    }

    /// A packet of this type came from this peer, which isn't a request's. It says whether that is to be reported: the
    /// first time, while there is a place for the type.
    pub(crate) fn note(&mut self, kind: u32, peer: Option<SocketAddr>) -> bool
        ensures first { result ≡ (nat_lt self.old.type_count 64 && not (list_any (is_of_type kind) (take self.old.type_count self.old.types))) }
        ensures noted { result ≡ true → take self.new.type_count self.new.types ≡ take self.old.type_count self.old.types ++ (kind, peer) ∷ [] }
        ensures said { self.new.said_types ≡ self.old.said_types }
        ensures none { result ≡ false → self.new ≡ self.old }
    {
        if self.type_count >= MOST_TYPES || self.is_noted(kind) {
            return false;
        }
        self.types[self.type_count] = (kind, peer);
        self.type_count += 1;
        self.is_due = true;
        true
    }

    /// At this time, in milliseconds, a grab of the type GRAB_JOB_ALL came that isn't the first. It says whether that
    /// is to be reported: once a minute.
    pub(crate) fn count_grab(&mut self, now_ms: u64) -> bool
        ensures { result ≡ nat_le 60000 (now_ms - self.old.grabs_said_ms) }
    {
        self.grabs = self.grabs.saturating_add(1);
        if now_ms.saturating_sub(self.grabs_said_ms) < SAID_AGAIN_MS {
            return false;
        }
        self.due_grabs = self.grabs;
        self.grabs = 0;
        self.grabs_said_ms = now_ms;
        self.is_due = true;
        true
    }

    /// The first grab of the type GRAB_JOB_ALL came at this time, in milliseconds, which is reported with its type.
    pub(crate) fn begin_grabs(&mut self, now_ms: u64) {
        self.grabs_said_ms = now_ms;
    }

    /// The types that are to be reported, each with the peer that sent the first such packet.
    pub(crate) fn due_types(&self) -> &[(u32, Option<SocketAddr>)] {
        self.types
            .get(self.said_types..self.type_count)
            .unwrap_or(&[])
    }

    /// Marks all that was due as written.
    pub(crate) fn take(&mut self) {
        self.is_due = false;
        self.said_types = self.type_count;
        self.due_grabs = 0;
        for remark in &mut self.troubles {
            remark.say();
        }
    }
}
