//! The table of the requests.

ghost use Rattle.std.specs.Prelude.{◌≡◌};
ghost use Rattle.gm_packet.specs.Kinds.{number, kind_of};

/// A request that this server knows, of the Gearman PROTOCOL document's types 1 to 36.
///
/// SUBMIT_JOB_SCHED (35) and SUBMIT_JOB_EPOCH (36) are left out: nothing here starts a job by the calendar.
/// The variant of `Request` with the same name says what each asks.
#[derive(Clone, Copy, Debug, PartialEq, Eq)]
pub enum Kind {
    CanDo = 1,
    CantDo = 2,
    ResetAbilities = 3,
    PreSleep = 4,
    SubmitJob = 7,
    GrabJob = 9,
    WorkStatus = 12,
    WorkComplete = 13,
    WorkFail = 14,
    GetStatus = 15,
    EchoReq = 16,
    SubmitJobBg = 18,
    SubmitJobHigh = 21,
    SetClientId = 22,
    CanDoTimeout = 23,
    AllYours = 24,
    WorkException = 25,
    OptionReq = 26,
    WorkData = 28,
    WorkWarning = 29,
    GrabJobUniq = 30,
    SubmitJobHighBg = 32,
    SubmitJobLow = 33,
    SubmitJobLowBg = 34,
}

impl Kind {
    /// The request with this packet type, if there is one.
    pub fn of(number: u32) -> Option<Kind>
        ensures { result ≡ kind_of number }
    {
        match number {
            1 => Some(Kind::CanDo),
            2 => Some(Kind::CantDo),
            3 => Some(Kind::ResetAbilities),
            4 => Some(Kind::PreSleep),
            7 => Some(Kind::SubmitJob),
            9 => Some(Kind::GrabJob),
            12 => Some(Kind::WorkStatus),
            13 => Some(Kind::WorkComplete),
            14 => Some(Kind::WorkFail),
            15 => Some(Kind::GetStatus),
            16 => Some(Kind::EchoReq),
            18 => Some(Kind::SubmitJobBg),
            21 => Some(Kind::SubmitJobHigh),
            22 => Some(Kind::SetClientId),
            23 => Some(Kind::CanDoTimeout),
            24 => Some(Kind::AllYours),
            25 => Some(Kind::WorkException),
            26 => Some(Kind::OptionReq),
            28 => Some(Kind::WorkData),
            29 => Some(Kind::WorkWarning),
            30 => Some(Kind::GrabJobUniq),
            32 => Some(Kind::SubmitJobHighBg),
            33 => Some(Kind::SubmitJobLow),
            34 => Some(Kind::SubmitJobLowBg),
            _ => None,
        }
    }

    /// Its packet type.
    pub fn number(self) -> u32
        ensures { result ≡ number self }
    {
        self as u32
    }
}
