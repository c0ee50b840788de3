//! What holds of every book.

ghost use Rattle.std.specs.Prelude.{◌≡◌};
ghost use Rattle.std.specs.List.{AllByRecursion};
ghost use Rattle.kd_model.specs.Slices.{Book, IsMaximal, IsSound, gaps};
ghost use Rattle.kd_model.specs.Words.{AnyOf};
ghost use Rattle.kd_model.specs.declared.placed.Gap.{Gap};

/// The gaps of a book are the maximal ranges that no slice covers, and all of them. The function
/// does nothing; its contract is the law.
pub fn gaps_are_maximal()
    ensures each { (b : Book) → IsSound b → AllByRecursion (IsMaximal b) (gaps b) }
    ensures all { (b : Book) (g : Gap) → IsSound b → IsMaximal b g → AnyOf (λ h. h ≡ g) (gaps b) }
{}
