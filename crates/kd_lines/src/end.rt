//! How a run ended.

ghost use Rattle.std.specs.Prelude.{◌≡◌};
ghost use Rattle.std.specs.declared.option.Option.TheVariants.{Some};
ghost use Rattle.kd_lines.specs.Ends.{exit_code, end_text};

use std::fmt;

/// How a run ended. Its number is the program's exit status, its text goes to standard error.
#[derive(Clone, Copy, Debug, PartialEq, Eq)]
pub enum End {
    /// The whole input was run.
    Done,
    /// The words of the command line aren't a run's form.
    BadWords,
    /// A read failed.
    ReadFault,
    /// A write failed.
    WriteFault,
    /// The input has no whole frame or reply at this byte.
    BadFrame {
        /// The place, from the front of the input.
        at: u64,
    },
    /// There was more input than a run takes.
    TooMuchInput,
    /// Memory ran out.
    OutOfMemory,
    /// The line that begins at this byte has no frame: its word at the second place isn't one that
    /// may stand there, or the line ends where one is wanting.
    BadLine {
        /// The place of the line, from the front of the input.
        at: u64,
    },
}

impl End {
    /// The exit status of the program.
    pub fn number(&self) -> u8
        ensures { result ≡ exit_code self.now }
    {
        match self {
            End::Done => 0,
            End::BadWords => 2,
            End::ReadFault => 3,
            End::WriteFault => 4,
            End::BadFrame { .. } => 5,
            End::TooMuchInput => 6,
            End::OutOfMemory => 7,
            End::BadLine { .. } => 8,
        }
    }
}

impl fmt::Display for End {
    ghost output = { λ end. Some (end_text end) };

    fn fmt<W: fmt::Write>(&self, f: &mut fmt::Formatter<W>) -> fmt::Result {
        match self {
            End::Done => write!(f, ""),
            End::BadWords => write!(f, "kd_show: usage: kd_show frames | replies | make"),
            End::ReadFault => write!(f, "kd_show: read fault"),
            End::WriteFault => write!(f, "kd_show: write fault"),
            End::BadFrame { at } => write!(f, "kd_show: no frame at byte {at}"),
            End::TooMuchInput => write!(f, "kd_show: too much input"),
            End::OutOfMemory => write!(f, "kd_show: out of memory"),
            End::BadLine { at } => write!(f, "kd_show: no frame in the line at byte {at}"),
        }
    }
}
