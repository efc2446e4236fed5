//! Titles alone and slots alone, without a pool.
use crate::bench::{Answered, Bench};
use crate::step::Step;
use object::Object;
use object::slots::Slots;
use object::titles::Titles;
use std::alloc::AllocError;
use text::hex::Hex;
use text::line::Line;
use text::meaning::{LookAnswer, WriteAnswer};
use text::trouble::Trouble;
use text::words::Kept;

/// One object of each kind, and how many questions were put to them.
#[derive(Clone, Copy)]
pub struct Singles {
    titles: Bench<Titles>,
    slots: Bench<Slots>,
    questions: u64,
}

/// Does a step on an object of a kind, and adds the line that answers it.
fn take_step<O: Object>(
    bench: &mut Bench<O>,
    kept: Kept,
    step: &Step,
    nonce: u64,
    out: &mut String,
) -> Result<(), AllocError> {
    match step {
        Step::Write { client, deed } => {
            let Answered { answer, asked } = bench.write(*client, &deed.operation());
            let means = WriteAnswer { kept, answer };
            let record = asked.unsealed();
            writeln!(
                out,
                "client {client} {deed}: {answer}, {means}; record {}",
                Hex(&record)
            )
        }
        Step::Look { client, deed } => {
            let Answered { answer, asked } = bench.look(*client, &deed.operation(), nonce);
            let means = LookAnswer { kept, answer };
            let record = asked.unsealed();
            writeln!(
                out,
                "client {client} {deed}: {answer}, {means}; record {}",
                Hex(&record)
            )
        }
        // one text for each outcome: put together from parts, it takes up to half as long again
        Step::TakeBack => out.push_str(match (kept, bench.take_back()) {
            (Kept::Titles, true) => "titles: the last write is taken back\n",
            (Kept::Titles, false) => "titles: there is nothing to take back\n",
            (Kept::Slots, true) => "slots: the last write is taken back\n",
            (Kept::Slots, false) => "slots: there is nothing to take back\n",
        }),
    }
}

impl Singles {
    /// Both objects fresh.
    pub fn new() -> Singles {
        Singles {
            titles: Bench::new(Titles::new()),
            slots: Bench::new(Slots::new()),
            questions: 0,
        }
    }

    /// Does the step that a line asks for behind the object's name.
    pub fn command(&mut self, kept: Kept, line: &mut Line<'_>) -> Result<(), Trouble> {
        let step = Step::read(kept, &mut line.words)?;
        if let Step::Look { .. } = step {
            self.questions = self.questions.saturating_add(1);
        }
        let nonce = self.questions;
        let out = &mut line.answer;
        match kept {
            Kept::Titles => take_step(&mut self.titles, kept, &step, nonce, out)?,
            Kept::Slots => take_step(&mut self.slots, kept, &step, nonce, out)?,
        }
        Ok(())
    }
}
