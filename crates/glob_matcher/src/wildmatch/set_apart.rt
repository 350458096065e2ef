//! A run of sets read apart from the engine that asks: out of line, by an engine of its own, so that the one that asks may stay in
//! registers, and what a call takes is paid once for them all.
ghost use Rattle.std.specs.Prelude.{◌≡◌};
ghost use Rattle.glob_matcher.specs.Private.SetRuns.{IsSetRun, MeetsBracket};

use super::counted_text::CountedText;
use super::counted_texts::CountedTexts;
use super::counted_value::CountedValue;
use super::engine::Engine;
use super::steps::Steps;
use super::texts::Texts;
use super::way::Way;
use std::marker::Brand;
use std::sync::ledger::Ledger;

/// Where an engine stands in its two texts: at `place` in the pattern, and at `at` in the value.
#[derive(Clone, Copy)]
pub struct Places {
    pub place: usize,
    pub at: usize,
}

/// What a run of sets comes to, of which each is tested at a byte of the value.
#[derive(Clone, Copy)]
pub enum SetRun {
    /// Each holds its byte.
    Held,
    /// The set that is met lacks its byte.
    Lacks,
    /// No set begins where the next would.
    Broken,
}

impl<'c, 'a, L: Ledger, M: Texts> Engine<'c, 'a, L, M> {
    /// Tests the sets that stand from these places on, apart from this engine, and moves the places to where the run ends, or to the
    /// set that lacks its byte.
    #[inline(always)]
    pub fn sets_apart(&mut self, places: &mut Places) -> SetRun
        requires { MeetsBracket M.pattern M.value places.old }
        ensures { IsSetRun M.way M.pattern M.value places.old places.new result self.old self.new }
    {
        let way = self.way();
        let texts = &mut self.texts;
        let (pattern, value) = (texts.pattern.again(), texts.value.again());
        read_sets::<L, M>(pattern, value, places, way, &mut *texts.counts)
    }

    /// Tests the sets that stand from these places on.
    #[inline(always)]
    fn pass_sets(&mut self, places: &mut Places) -> SetRun
        requires { MeetsBracket M.pattern M.value places.old }
        ensures { IsSetRun M.way M.pattern M.value places.old places.new result self.old self.new }
    {
        'sets: while places.at < self.texts.value_len() && self.has_byte(places.place, b'[') {
            let byte = self.texts.value_byte(places.at);
            let Some(set) = self.set_at(places.place, byte) else {
                return SetRun::Broken;
            };
            if !set.holds {
                return SetRun::Lacks;
            }
            places.place = set.end;
            places.at += 1;
        }
        SetRun::Held
    }
}

/// Tests a run of sets, out of line; and cold, so that the engine that asks keeps its registers for the turns at other tokens.
#[cold]
#[inline(never)]
fn read_sets<'a, L: Ledger, M: Texts>(
    pattern: CountedText<'a, L>,
    value: CountedValue<'a, L>,
    places: &mut Places,
    way: Way,
    counts: &mut Steps<L>,
) -> SetRun
    requires pattern { pattern ≡ M.pattern }
    requires value { value ≡ M.value }
    requires way { way ≡ M.way }
    requires bracket { MeetsBracket M.pattern M.value places.old }
    ensures { IsSetRun M.way M.pattern M.value places.old places.new result counts.old counts.new }
{
    read_by::<L, Brand>(pattern, value, places, way, counts).0
}

/// Tests a run of sets by an engine of its own, and hands the counts back.
#[inline(always)]
fn read_by<'c, 'a, L: Ledger, M: Texts>(
    pattern: CountedText<'a, L>,
    value: CountedValue<'a, L>,
    places: &mut Places,
    way: Way,
    counts: &'c mut Steps<L>,
) -> (SetRun, &'c mut Steps<L>)
    requires pattern { pattern ≡ M.pattern }
    requires value { value ≡ M.value }
    requires way { way ≡ M.way }
    requires counts { counts.ghost_name ≡ M.counts }
    requires bracket { MeetsBracket M.pattern M.value places.old }
    ensures same { result.1.ghost_name ≡ counts.entry.ghost_name }
    ensures run { IsSetRun M.way M.pattern M.value places.old places.new result.0 counts.old result.1.now }
{
    let texts = CountedTexts::<'c, 'a, L, M>::of(pattern, value, counts);
    let mut engine = Engine::new(texts, way);
    let run = engine.pass_sets(places);
    (run, engine.into_counts())
}
