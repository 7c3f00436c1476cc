ghost use Rattle.std.specs.Prelude.{◌<◌};

use std::sync::atomic::AtomicBool;
use std::sync::atomic::Ordering::SeqCst;
use worker_gate::Gate;

/// How often one looks for the other.
const LOOKS: u32 = 100_000_000;

/// A gate that lets the tickets 0 and 1 in, which stand for the strips 0 and 1, once a worker has come with each. Later tickets
/// pass.
#[derive(Drop)]
pub struct Meeting {
    came: [AtomicBool; 2],
    met: [AtomicBool; 2],
}

impl Meeting {
    /// Nobody came yet.
    pub fn new() -> Meeting {
        Meeting {
            came: [AtomicBool::new(false), AtomicBool::new(false)],
            met: [AtomicBool::new(false), AtomicBool::new(false)],
        }
    }

    /// Whether each saw the other in time.
    pub fn took_place(&self) -> bool {
        self.met[0].load(SeqCst) && self.met[1].load(SeqCst)
    }

    fn wait(&self, here: usize)
        requires { here < 2 }
    {
        self.came[here].store(true, SeqCst);
        for _ in 0..LOOKS {
            if self.came[1 - here].load(SeqCst) {
                self.met[here].store(true, SeqCst);
                return;
            }
        }
    }
}

impl Gate for Meeting {
    fn enter(&self, _strip: u32, ticket: u64) {
        if ticket < 2 {
            self.wait(ticket as usize);
        }
    }
}
