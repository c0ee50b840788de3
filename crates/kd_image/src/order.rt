//! Names in byte order.

ghost use Rattle.std.specs.Prelude.{◌≡◌, ◌++◌, ◌∷◌, [], IsTrue};
ghost use Rattle.kd_model.specs.Words.{text_below};
ghost use Rattle.kd_image.specs.Items.{rising};

use kd_types::Text;

/// Whether one text is before another in byte order.
fn is_below(a: &[u8], b: &[u8]) -> bool
    ensures { result ≡ text_below a.now b.now }
{
    a < b
}

/// Whether names still rise with this one behind them.
pub(crate) fn may_follow(names: &[Text], name: &[u8]) -> bool
    requires { IsTrue (rising names.now) }
    ensures { result ≡ rising (names.now ++ name.now ∷ []) }
{
    match names.last() {
        Some(last) => is_below(last.bytes(), name),
        None => true,
    }
}
