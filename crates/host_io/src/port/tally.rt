// How the calls of a role ended. Only the calls of the system count here, and `give_up`.
ghost use Rattle.std.specs.Prelude.{◌≡◌, ◌≢◌, ◌↔◌, ◌-◌, ◌^◌, ◌≤◌, ◌<◌, Ok, IsTrue, IsFalse, IsErr, IsErrAnd, IfSome, IfNone, IfOk, OnErr};
ghost use Rattle.std.specs.IoError.{error_kind};
ghost use Rattle.host_io.specs.Port.{faults_of, breaks_of, Rises, Answers, Settles};

use crate::source::Failed;
use std::io;
use std::io::ErrorKind;

/// How many calls failed, how many a signal broke off, and why the last one that failed did.
#[derive(Drop)]
pub(crate) struct Tally {
    faults: u64,
    broken_off: u64,
    last_fault: Option<ErrorKind>,
}

impl Tally {
    pub(crate) fn new() -> Self
        ensures { faults_of result ≡ 0 }
    {
        Tally {
            faults: 0,
            broken_off: 0,
            last_fault: None,
        }
    }

    /// Why the last call that failed did.
    pub(crate) fn last_fault(&self) -> Option<ErrorKind> {
        self.last_fault
    }

    /// Whether a call that was broken off may be made again.
    pub(crate) fn may_repeat(&self) -> bool
        ensures repeats { IsTrue result → breaks_of self.now < 2 ^ 64 - 1 }
        ensures full { IsFalse result → 2 ^ 64 - 1 ≤ breaks_of self.now }
    {
        self.broken_off < u64::MAX
    }

    /// As many calls were broken off as can be counted: a fault.
    pub(crate) fn give_up(&mut self) -> Failed
        requires { 2 ^ 64 - 1 ≤ breaks_of self.old }
        ensures rises { Rises self.old self.new }
        ensures breaks { breaks_of self.new ≡ breaks_of self.old }
    {
        self.fail(ErrorKind::Interrupted)
    }

    /// A call failed, for this reason.
    pub(super) fn fail(&mut self, reason: ErrorKind) -> Failed
        ensures rises { Rises self.old self.new }
        ensures breaks { breaks_of self.new ≡ breaks_of self.old }
    {
        self.faults = self.faults.saturating_add(1);
        self.last_fault = Some(reason);
        Failed
    }

    // What a call answered, where any error is a fault.
    pub(super) fn settle<T>(&mut self, answer: io::Result<T>) -> Result<T, Failed>
        ensures ok { IfOk result (λ value. answer ≡ Ok value) }
        ensures err { OnErr result (IsErr answer) }
        ensures tally { Settles self.old self.new result }
        ensures breaks { breaks_of self.new ≡ breaks_of self.old }
    {
        match answer {
            Ok(value) => Ok(value),
            Err(error) => Err(self.fail(error.kind())),
        }
    }

    // What a call answered: nothing where a signal broke it off, and any other error is a fault.
    pub(super) fn note<T: Drop>(&mut self, answer: io::Result<T>) -> Option<Result<T, Failed>>
        ensures ok { IfSome result (λ settled. IfOk settled (λ value. answer ≡ Ok value)) }
        ensures err { IfSome result (λ settled. OnErr settled (IsErrAnd answer (λ e. error_kind e ≢ ErrorKind.Interrupted))) }
        ensures broken_off { IfNone result (IsErrAnd answer (λ e. error_kind e ≡ ErrorKind.Interrupted)) }
        ensures tally { Answers self.old self.new result }
    {
        if is_broken_off(&answer) {
            self.broken_off = self.broken_off.saturating_add(1);
            return None;
        }
        Some(self.settle(answer))
    }
}

// A signal broke the call off.
fn is_broken_off<T>(answer: &io::Result<T>) -> bool
    ensures { IsTrue result ↔ IsErrAnd answer.now (λ e. error_kind e ≡ ErrorKind.Interrupted) }
{
    matches!(answer, Err(e) if e.kind() == ErrorKind::Interrupted)
}
