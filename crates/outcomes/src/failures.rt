// Why a step of a command failed.
ghost use Rattle.std.specs.Prelude.{◌≡◌};
ghost use Rattle.outcomes.specs.declared.failures.JudgeFault.TheVariants.{NoMemory as WantOfMemory};
ghost use Rattle.outcomes.specs.declared.failures.ReadFault.TheVariants.{NoMemory as NoRoom};
ghost use Rattle.outcomes.specs.Failures.{stop_of_files, stop_of_out, stop_of_judge, stop_of_read};

use crate::object::Object;
use crate::stop::Stop;
use cos_base::NoMemory;

/// Why a file wasn't read or written.
#[derive(Clone, Copy, Debug, PartialEq, Eq, Drop)]
pub enum FilesFailure {
    /// The files failed; `count` is their count of faults.
    Failed { count: u64 },
    /// Want of memory.
    NoMemory,
}

impl<R> From<FilesFailure> for Stop<R> {
    ghost from_gives = { λ failure stop. stop ≡ stop_of_files failure };

    fn from(failure: FilesFailure) -> Self {
        match failure {
            FilesFailure::Failed { count } => Stop::Outside {
                object: Object::Files,
                count,
            },
            FilesFailure::NoMemory => Stop::NoMemory,
        }
    }
}

/// Standard output didn't take all of a text; `count` is its count of faults.
#[derive(Clone, Copy, Debug, PartialEq, Eq, Drop)]
pub struct OutFailure {
    pub count: u64,
}

impl<R> From<OutFailure> for Stop<R> {
    ghost from_gives = { λ failure stop. stop ≡ stop_of_out failure };

    fn from(failure: OutFailure) -> Self {
        Stop::Outside {
            object: Object::Out,
            count: failure.count,
        }
    }
}

/// Why what was read gave nothing.
#[derive(Clone, Copy, Debug, PartialEq, Eq, Drop)]
pub enum JudgeFault<R> {
    /// It is refused.
    Refused(R),
    /// Want of memory.
    NoMemory,
}

impl<R> From<NoMemory> for JudgeFault<R> {
    ghost from_gives = { λ _ fault. fault ≡ WantOfMemory };

    fn from(_: NoMemory) -> Self {
        JudgeFault::NoMemory
    }
}

impl<R> From<JudgeFault<R>> for Stop<R> {
    ghost from_gives = { λ fault stop. stop ≡ stop_of_judge fault };

    fn from(fault: JudgeFault<R>) -> Self {
        match fault {
            JudgeFault::Refused(refusal) => Stop::Refused(refusal),
            JudgeFault::NoMemory => Stop::NoMemory,
        }
    }
}

/// Why what files hold wasn't had.
#[derive(Debug, Drop)]
pub enum ReadFault<R> {
    /// A file is refused.
    Refused(R),
    /// The files failed; `count` is their count of faults.
    Failed { count: u64 },
    /// Want of memory.
    NoMemory,
}

impl<R> From<NoMemory> for ReadFault<R> {
    ghost from_gives = { λ _ fault. fault ≡ NoRoom };

    fn from(_: NoMemory) -> Self {
        ReadFault::NoMemory
    }
}

impl<R> From<ReadFault<R>> for Stop<R> {
    ghost from_gives = { λ fault stop. stop ≡ stop_of_read fault };

    fn from(fault: ReadFault<R>) -> Self {
        match fault {
            ReadFault::Refused(refusal) => Stop::Refused(refusal),
            ReadFault::Failed { count } => Stop::Outside {
                object: Object::Files,
                count,
            },
            ReadFault::NoMemory => Stop::NoMemory,
        }
    }
}
