// A bell at which one worker is held until the other one has taken work as well.
use outside::Bell;
use std::sync::atomic::{AtomicU64, Ordering};

// How often the held worker looks before it gives up.
const LOOKS: u64 = 1_000_000_000;

// Of two workers, the first that takes a node other than the root is held there until the other has
// taken any. Nobody else can have work while the root is in hand.
#[derive(Drop)]
pub(crate) struct Meeting {
    // Whether worker 0 has taken work, 1 if so.
    first: AtomicU64,
    // Whether worker 1 has.
    second: AtomicU64,
    // Whether a worker was held, 1 if so.
    held: AtomicU64,
    // Whether a held worker gave up, 1 if so.
    gave_up: AtomicU64,
}

impl Meeting {
    pub fn new() -> Meeting {
        Meeting {
            first: AtomicU64::new(0),
            second: AtomicU64::new(0),
            held: AtomicU64::new(0),
            gave_up: AtomicU64::new(0),
        }
    }

    // Whether both workers took work, and none waited in vain.
    pub fn took_place(&self) -> bool {
        let first = self.first.load(Ordering::SeqCst);
        let second = self.second.load(Ordering::SeqCst);
        let gave_up = self.gave_up.load(Ordering::SeqCst);
        first == 1 && second == 1 && gave_up == 0
    }

    // Notes that a worker took work.
    fn note(&self, worker: u32) {
        if worker == 0 {
            self.first.store(1, Ordering::SeqCst);
        } else {
            self.second.store(1, Ordering::SeqCst);
        }
    }

    // Whether the other worker took work.
    fn has_other(&self, worker: u32) -> bool {
        if worker == 0 {
            self.second.load(Ordering::SeqCst) == 1
        } else {
            self.first.load(Ordering::SeqCst) == 1
        }
    }

    // Holds a worker until the other took work.
    fn hold(&self, worker: u32) {
        for _ in 0..LOOKS {
            if self.has_other(worker) {
                return;
            }
        }
        self.gave_up.store(1, Ordering::SeqCst);
    }
}

impl Bell for Meeting {
    fn at(&self, worker: u32, job: u64) {
        self.note(worker);
        if job != 0 && self.held.swap(1, Ordering::SeqCst) == 0 {
            self.hold(worker);
        }
    }
}
