//! The words of a run.

ghost use Rattle.std.specs.Prelude.{◌↔◌, IsTrue};
ghost use Rattle.kd_trace.specs.Words.{AreOnly};

/// Whether the words are this one and no other.
pub fn is_only(words: &[&str], only: &str) -> bool
    ensures { IsTrue result ↔ AreOnly only.now words.now }
{
    match words {
        [word] => *word == only,
        _ => false,
    }
}
