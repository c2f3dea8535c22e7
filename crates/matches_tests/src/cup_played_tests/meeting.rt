//! How two games meet: before they begin, or in a read of the waiting game, which lasts until the
//! other game reads too.
ghost use Rattle.std.specs.Prelude.{None, refl};

use cup::CupGate;
use io_edge::{Link, MemLink, ReadAnswer, Sink, Source, WriteAnswer};
use std::sync::atomic::{AtomicBool, Ordering};

/// How often a game that waits for another looks at its flag.
const LOOKS: u32 = 1_000_000_000;

/// Which of two games have arrived, and which of them saw the other one.
#[derive(Drop)]
pub struct Meeting {
    here: [AtomicBool; 2],
    saw: [AtomicBool; 2],
}

impl Meeting {
    pub fn new() -> Self {
        Meeting {
            here: [AtomicBool::new(false), AtomicBool::new(false)],
            saw: [AtomicBool::new(false), AtomicBool::new(false)],
        }
    }

    /// Notes that this game has arrived, and looks whether the other one has.
    fn meet(&self, game: usize) {
        if game >= 2 {
            return;
        }
        self.here[game].store(true, Ordering::SeqCst);
        for _ in 0..LOOKS {
            if self.here[1 - game].load(Ordering::SeqCst) {
                self.saw[game].store(true, Ordering::SeqCst);
                return;
            }
        }
    }

    /// Whether this game saw the other one.
    pub fn has_met(&self, game: usize) -> bool {
        game < 2 && self.saw[game].load(Ordering::SeqCst)
    }
}

impl CupGate for Meeting {
    fn before_game(&self, game: u32) {
        self.meet(game as usize);
    }
}

/// A link in memory. If it must meet the other game, one of its reads waits for it. Its bytes are
/// not observable.
#[derive(Drop)]
pub struct MeetingLink<'a> {
    link: MemLink,
    game: Option<usize>,
    reads: usize,
    meeting: &'a Meeting,
}

impl<'a> MeetingLink<'a> {
    /// A link of the game at this place, 0 or 1, that meets the other game in the read after this
    /// number of reads.
    pub fn meeting(link: MemLink, game: usize, reads: usize, meeting: &'a Meeting) -> Self {
        MeetingLink {
            link,
            game: Some(game),
            reads,
            meeting,
        }
    }

    /// A link that waits for nothing.
    pub fn alone(link: MemLink, meeting: &'a Meeting) -> Self {
        MeetingLink {
            link,
            game: None,
            reads: 0,
            meeting,
        }
    }
}

impl<'a> Source for MeetingLink<'a> {
    ghost rest = { λ _. None };

    ghost read_faults = { λ l. l.link.source.calls.faults };

    ghost source_aside = { λ l. record { bytes = None; faults = l.link.sink.calls.faults } };

    fn read(&mut self, buffer: &mut [u8]) -> ReadAnswer {
        if self.reads > 0 {
            self.reads -= 1;
        } else if let Some(game) = self.game.take() {
            self.meeting.meet(game);
        }
        self.link.read(buffer)
    }
}

impl<'a> Sink for MeetingLink<'a> {
    ghost written = { λ _. None };

    ghost write_faults = { λ l. l.link.sink.calls.faults };

    ghost sink_aside = { λ l. record { bytes = None; faults = l.link.source.calls.faults } };

    fn write(&mut self, bytes: &[u8]) -> WriteAnswer {
        self.link.write(bytes)
    }
}

impl<'a> Link for MeetingLink<'a> {
    ghost reading_leaves = { λ _. refl };

    ghost writing_leaves = { λ _. refl };
}
