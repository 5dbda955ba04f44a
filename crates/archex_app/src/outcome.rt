// What a command comes to before anything is printed, and how a run ends with it.
ghost use Rattle.std.specs.Prelude.{◌≡◌, ℕ, ◌≤◌, List, ◌++◌, ◌⊎◌};
ghost use Rattle.outside.specs.Faults.{Rose};
ghost use Rattle.outside.specs.Told.{Appends};
ghost use Rattle.archex_app.specs.Inner.Outcome.{Finishes, Printed};
ghost use Rattle.archex_app.specs.Inner.Log.{Concludes};

use crate::printing::print_all;
use crate::reading::ReadError;
use crate::status::Status;
use crate::writing::WriteError;
use outside::Sink;
use std::alloc::{AllocError, Global};
use std::borrow::CowSlice;

/// What a command comes to.
#[derive(Drop)]
pub struct Outcome {
    /// How the run ends, once the text is printed.
    pub status: Status,
    /// The bytes that are due on the sink.
    pub text: CowSlice<'static, u8, Global>,
}

/// Why a command stops before its job is done.
#[derive(Drop)]
pub enum Stop {
    /// There was no memory.
    NoMemory,
    /// A read of a file failed.
    Unread,
    /// What was read is refused.
    Refused(Outcome),
}

impl From<AllocError> for Stop {
    ghost use Rattle.archex_app.specs.declared.outcome.Stop.TheVariants.{NoMemory};

    ghost from_gives = { λ _ stop. stop ≡ NoMemory };

    fn from(_error: AllocError) -> Stop {
        Stop::NoMemory
    }
}

impl From<ReadError> for Stop {
    ghost use Rattle.archex_app.specs.Inner.Outcome.{stop_of};

    ghost from_gives = { λ error stop. stop ≡ stop_of error };

    fn from(error: ReadError) -> Stop {
        match error {
            ReadError::Memory => Stop::NoMemory,
            ReadError::Failed => Stop::Unread,
        }
    }
}

/// Prints a text, and answers the status that goes with it, or that it couldn't be printed whole.
pub fn print<O: Sink>(out: &mut O, text: &[u8], status: Status) -> Status
    ensures printed { Printed status text.now result (O.told out.old) (O.told out.new)
        (O.faults out.old) (O.faults out.new) }
    ensures never_falls { O.faults out.old ≤ O.faults out.new }
{
    match print_all(out, text) {
        Ok(()) => status,
        Err(_) => Status::WRITE_FAULT,
    }
}

/// Prints what a command came to, and answers how the run ended.
pub fn finish<O: Sink>(out: &mut O, outcome: Result<Outcome, Stop>) -> Status
    ensures finishes { Finishes outcome result (O.told out.old) (O.told out.new) (O.faults out.old) (O.faults out.new) }
    ensures never_falls { O.faults out.old ≤ O.faults out.new }
{
    match outcome {
        Ok(outcome) | Err(Stop::Refused(outcome)) => {
            print(out, outcome.text.as_slice(), outcome.status)
        }
        Err(Stop::Unread) => Status::READ_FAULT,
        Err(Stop::NoMemory) => Status::NO_MEMORY,
    }
}

/// Ends a run whose files were written, or weren't: only a run with whole files prints.
pub fn conclude<O: Sink>(out: &mut O, written: Result<(), WriteError>, report: Outcome) -> Status
    ensures concludes { Concludes written report result
        (O.told out.old) (O.told out.new) (O.faults out.old) (O.faults out.new) }
    ensures never_falls { O.faults out.old ≤ O.faults out.new }
{
    match written {
        Ok(()) => print(out, report.text.as_slice(), report.status),
        Err(WriteError::Failed) => Status::WRITE_FAULT,
        Err(WriteError::Memory) => Status::NO_MEMORY,
    }
}
