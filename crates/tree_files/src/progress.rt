//! How far a long listing is, told on a terminal.
ghost use Rattle.std.specs.Prelude.{◌≡◌, ◌+◌, ◌<◌, ◌^◌, None, false};

use std::rt::Clock;
use std::time::{Duration, Instant};

/// So much time goes by before something is told, and before it is told again.
const QUIET_MILLISECONDS: u64 = 1000;

/// Tells how many folders were entered, where somebody may see it.
#[derive(Drop)]
pub(crate) struct Progress<'a, R: Clock + Eprint> {
    rt: &'a R,
    /// When it was told, or else when the work began; `None` where nothing is to be told.
    last: Option<Instant>,
    folders: u64,
    is_told: bool,
}

impl<'a, R: Clock + Eprint> Progress<'a, R> {
    /// No folder was entered yet. Only where it is `shown`, something is told.
    pub(crate) fn new(rt: &'a R, shown: bool) -> Progress<'a, R>
        ensures none { result.folders ≡ 0 }
        ensures hidden { shown ≡ false → result.last ≡ None }
    {
        let last = if shown { Instant::now(rt).ok() } else { None };
        Progress {
            rt,
            last,
            folders: 0,
            is_told: false,
        }
    }

    /// One folder more is entered.
    pub(crate) fn enter(&mut self)
        ensures counted { self.old.folders + 1 < 2 ^ 64 → self.new.folders ≡ self.old.folders + 1 }
        ensures hidden { self.old.last ≡ None → self.new.is_told ≡ self.old.is_told }
    {
        self.folders = self.folders.saturating_add(1);
        if !self.is_due() {
            return;
        }
        let count = self.folders;
        // (what is told next takes the place of this)
        let _ = eprint!(self.rt; "{count} folders\r");
        self.is_told = true;
        self.last = Instant::now(self.rt).ok();
    }

    /// Whether so much time has gone by that something is to be told.
    fn is_due(&self) -> bool
        ensures { self.now.last ≡ None → result ≡ false }
    {
        let Some(last) = self.last else {
            return false;
        };
        match last.elapsed(self.rt) {
            Ok(gone) => gone >= Duration::from_millis(QUIET_MILLISECONDS),
            Err(_unknown) => false,
        }
    }

    /// Takes away what was told.
    pub(crate) fn end(&self) {
        if self.is_told {
            let _ = eprint!(self.rt; "\x1b[K");
        }
    }
}
