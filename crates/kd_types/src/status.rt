//! How a run of the program ended.

ghost use Rattle.std.specs.Prelude.{◌≡◌};
ghost use Rattle.std.specs.declared.option.Option.TheVariants.{Some};
ghost use Rattle.kd_types.specs.Status.{exit_code, status_text};

use std::fmt;

/// How a run ended. Its number is the program's exit status, its text goes to standard error.
#[derive(Clone, Copy, Debug, PartialEq, Eq)]
pub enum Status {
    /// The whole input was run.
    Done,
    /// The words of the command line aren't a run's form.
    BadWords,
    /// A read failed.
    ReadFault,
    /// A write failed.
    WriteFault,
    /// The input has no whole frame at this byte.
    BadFrame {
        /// The place, from the front of the input.
        at: u64,
    },
    /// There was more input than a run takes.
    TooMuchInput,
    /// Memory ran out.
    OutOfMemory,
    /// A worker couldn't be started.
    NoWorker,
    /// A path couldn't be listened on, or a listener failed before its last session.
    ListenFault,
    /// The configuration breaks its format in the line that begins at this byte.
    BadConfig {
        /// The place, from the front of the configuration; 65,537 for one that is too long.
        at: u64,
    },
    /// The input isn't the trace of a run: it breaks the format at this byte.
    BadTrace {
        /// The place, from the front of the input.
        at: u64,
    },
}

impl Status {
    /// The exit status of the program.
    pub fn number(&self) -> u8
        ensures { result ≡ exit_code self.now }
    {
        match self {
            Status::Done => 0,
            Status::BadWords => 2,
            Status::ReadFault => 3,
            Status::WriteFault => 4,
            Status::BadFrame { .. } => 5,
            Status::TooMuchInput => 6,
            Status::OutOfMemory => 7,
            Status::NoWorker => 8,
            Status::ListenFault => 9,
            Status::BadConfig { .. } => 10,
            Status::BadTrace { .. } => 11,
        }
    }
}

impl fmt::Display for Status {
    ghost output = { λ status. Some (status_text status) };

    fn fmt<W: fmt::Write>(&self, f: &mut fmt::Formatter<W>) -> fmt::Result {
        match self {
            Status::Done => write!(f, ""),
            Status::BadWords => {
                write!(
                    f,
                    "kdbusd: usage: kdbusd replay | serve FILE | storm SEED K N | record | check"
                )
            }
            Status::ReadFault => write!(f, "kdbusd: read fault"),
            Status::WriteFault => write!(f, "kdbusd: write fault"),
            Status::BadFrame { at } => write!(f, "kdbusd: bad frame at byte {at}"),
            Status::TooMuchInput => write!(f, "kdbusd: too much input"),
            Status::OutOfMemory => write!(f, "kdbusd: out of memory"),
            Status::NoWorker => write!(f, "kdbusd: no worker"),
            Status::ListenFault => write!(f, "kdbusd: listen fault"),
            Status::BadConfig { at } => write!(f, "kdbusd: bad configuration at byte {at}"),
            Status::BadTrace { at } => write!(f, "kdbusd: bad trace at byte {at}"),
        }
    }
}
