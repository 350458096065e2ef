//! Which match it is, in words that contracts alone have: its texts, its mode, and the reference to its counts.
ghost use Rattle.std.specs.Prelude.{◌≡◌, ◌-◌, ◌^◌, take};

use std::marker::Brand;

/// One match, which contracts alone name: its texts, its mode, and the reference to its counts.
pub trait Texts {
    ghost use Rattle.std.specs.Prelude.{ℕ, ◌<◌, ◌^◌, List, length};
    ghost use Rattle.glob_matcher.specs.declared.wildmatch.way.Way.{Way};

    ghost pattern: { List ℕ };

    ghost value: { List ℕ };

    ghost way: { Way };

    ghost counts: { ℕ };

    ghost short_pattern: { length pattern < 2 ^ 64 };

    ghost short_value: { length value < 2 ^ 64 };
}

impl Texts for Brand {
    ghost use Rattle.std.specs.Prelude.{[]};
    ghost use Rattle.std.proofs.Common.{arith};
    ghost use Rattle.glob_matcher.specs.declared.wildmatch.way.Way.TheVariants.{Plain};

    ghost pattern = { [] };

    ghost value = { [] };

    ghost way = { Plain };

    ghost counts = { 0 };

    ghost short_pattern = { Prim.omega arith };

    ghost short_value = { Prim.omega arith };
}

/// A text has no more bytes than a place can count.
#[inline(always)]
pub fn text_is_short(text: &[u8])
    ensures { text.now ≡ take (2 ^ 64 - 1) text.now }
{
    let _ = text.len();
}
