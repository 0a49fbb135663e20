//! Calls for tests: each makes calls that the server makes, without what it hands along, or is a refusal's number.

ghost use Rattle.std.specs.Prelude.{◌≡◌, ℕ, IfSome, IfNone, length};
ghost use Rattle.gm_jobs.specs.Live.{AreCarried, fresh};
ghost use Rattle.gm_jobs.specs.Numbers.{job_error_number};
ghost use Rattle.gm_jobs.specs.Tables.{IsNamed, HasRoom, Makes};

use crate::job::NewJob;
use crate::jobs::{JobError, Jobs};

impl JobError {
    /// The number of this refusal.
    pub fn number(self) -> u8
        ensures { result ≡ job_error_number self }
    {
        self as u8
    }
}

impl Jobs {
    /// The live job of this function with this unique id; none if the id is empty or a dash.
    pub fn by_unique(&self, f: u32, unique: &[u8]) -> Option<u64>
        ensures found { IfSome result (IsNamed f unique.now self.now) }
        ensures only { IfSome result (λ n. (m : ℕ) → IsNamed f unique.now self.now m → m ≡ n) }
        ensures none { IfNone result ((n : ℕ) → IsNamed f unique.now self.now n → ⊥) }
    {
        self.find(f, unique).ok()
    }

    /// `insert`, with a body that is copied. No live job of its function has its unique id, unless that is empty or a
    /// dash.
    pub fn insert_reserved(&mut self, new: NewJob<'_>) -> u64
        requires room { HasRoom new.f (length new.unique.now) (length new.body.now) self.old }
        requires single { (n : ℕ) → IsNamed new.f new.unique.now self.old n → ⊥ }
        requires carried { AreCarried new.unique.now new.body.now }
        ensures number { result ≡ self.old.next }
        ensures makes { Makes (fresh new.entry.f new.entry.p new.entry.unique.now new.entry.body.now new.entry.kept new.entry.listener) self.old self.new }
    {
        let vacancy = self.find(new.f, new.unique).unwrap_err();
        self.insert(new, None, vacancy)
    }
}
