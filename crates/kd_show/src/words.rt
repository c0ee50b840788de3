//! The words of the command line.

ghost use Rattle.std.specs.Prelude.{IfSome, IfNone};
ghost use Rattle.kd_show.specs.Words.{AskFor, AskForNothing};

use kd_lines::Kind;

/// What the program is asked to do.
#[derive(Clone, Copy, Debug, PartialEq, Eq)]
pub enum Work {
    /// Show what the bytes are, a line for each.
    Show(Kind),
    /// Make frames of lines.
    Make,
}

/// What the words ask for, where they ask for something.
pub fn work_of(words: &[&str]) -> Option<Work>
    ensures some { IfSome result (λ work. AskFor work words.now) }
    ensures none { IfNone result (AskForNothing words.now) }
{
    let [word] = words else {
        return None;
    };
    match *word {
        "frames" => Some(Work::Show(Kind::Frames)),
        "replies" => Some(Work::Show(Kind::Replies)),
        "make" => Some(Work::Make),
        _ => None,
    }
}
