//! Laws of the rests of patterns.
ghost use Rattle.std.specs.Prelude.{◌↔◌, ◌++◌, ℕ, List, length};
ghost use Rattle.glob_matcher.specs.declared.wildmatch.way.Way.{Way};
ghost use Rattle.glob_matcher.specs.Matching.{SplitsFrom};
ghost use Rattle.glob_matcher.specs.Rests.{StandsAlone};

/// What a pattern matches from a place on, the rest of it matches as a pattern of its own: where the rest begins with two stars, only if
/// nothing or a slash stands before it.
pub fn a_rest_is_a_pattern_of_its_own()
    ensures { (way : Way) (front rest value : List ℕ) (k : ℕ) → StandsAlone front rest
        → SplitsFrom value k (front ++ rest) (length front) way ↔ SplitsFrom value k rest 0 way }
{}
