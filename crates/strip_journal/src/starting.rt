ghost use Rattle.std.specs.Prelude.{◌≡◌};
ghost use Rattle.strip_journal.specs.Journals.{IsAt, IsJournal, job_of};

use crate::changes::Changes;
use crate::entries::Entries;
use crate::history::EditHistory;
use crate::journal::Journal;
use crate::rays::clear_all;
use strip_plan::Plan;

impl Journal {
    /// The strip before the first edit again. It takes no memory.
    pub fn start_over(self, plan: &Plan) -> Journal
        requires journal { IsJournal (job_of self) self }
        requires plan { self.plan.value ≡ plan.now }
        ensures { IsAt self result 0 }
    {
        let Journal {
            number,
            alloc,
            plan: of_plan,
            stock,
            part,
            fixture,
            of,
            mut rays,
            ..
        } = self;
        clear_all(&mut rays, plan.grid().strip_len(number));
        Journal {
            number,
            done: 0,
            at: 0,
            line: EditHistory::new(alloc),
            alloc,
            plan: of_plan,
            stock,
            part,
            fixture,
            of,
            rays,
            changes: Changes::new(alloc),
            entries: Entries::new(alloc),
            room: Vec::new(alloc),
        }
    }
}
