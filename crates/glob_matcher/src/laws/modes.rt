//! Laws of ways to match, and of what modes ask for.
ghost use Rattle.std.specs.Prelude.{◌≡◌, ◌↔◌, ℕ, false, List};
ghost use Rattle.glob_matcher.specs.declared.wildmatch.mode.Mode.{Mode};
ghost use Rattle.glob_matcher.specs.declared.wildmatch.way.Way.{Way};
ghost use Rattle.glob_matcher.specs.Bytes.{HasByte, folding, folds, has_slash, star};
ghost use Rattle.glob_matcher.specs.ExactFolding.{NoModeFoldsExactly};
ghost use Rattle.glob_matcher.specs.Matching.{Splits, SplitsBy};
ghost use Rattle.glob_matcher.specs.Ways.{way_of};

/// A pattern splits a value without slash alike in two modes that agree on case: where the pattern has no slash either, and where
/// it doesn't begin with two stars. (`**/a` splits `a` in path mode alone.)
pub fn no_slash_is_special_where_the_value_has_none()
    ensures bare { (mode other : Mode) (pattern value : List ℕ) → folds (way_of mode) ≡ folds (way_of other) → has_slash value ≡ false
        → has_slash pattern ≡ false → Splits value pattern mode ↔ Splits value pattern other }
    ensures one_star { (mode other : Mode) (pattern value : List ℕ) → folds (way_of mode) ≡ folds (way_of other) → has_slash value ≡ false
        → ¬ (HasByte pattern 0 star × HasByte pattern 1 star) → Splits value pattern mode ↔ Splits value pattern other }
{}

/// The same of two ways that fold alike.
pub fn no_slash_is_special_in_ways_that_fold_alike()
    ensures bare { (way other : Way) (pattern value : List ℕ) → folding way ≡ folding other → has_slash value ≡ false
        → has_slash pattern ≡ false → SplitsBy value pattern way ↔ SplitsBy value pattern other }
    ensures one_star { (way other : Way) (pattern value : List ℕ) → folding way ≡ folding other → has_slash value ≡ false
        → ¬ (HasByte pattern 0 star × HasByte pattern 1 star) → SplitsBy value pattern way ↔ SplitsBy value pattern other }
{}

/// No mode asks for exact folding.
pub fn modes_never_fold_exactly()
    ensures { NoModeFoldsExactly }
{}
