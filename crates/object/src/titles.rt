// Titles: 64 of them, each unissued, held by a client, or surrendered.
//
// An operation has its code in byte 0 (1 issues, 2 transfers, 3 surrenders), the title in byte 1 and the
// receiver in byte 2; no other byte is read.
ghost use Rattle.object.specs.Titles.{titles_rules, titles_first, act as act_of, fault_number, judged, acted, outcome as outcome_of, shown as shown_as, title_at, titles_held};
ghost use Rattle.object.specs.declared.titles.UnknownCode.{UnknownCode};
ghost use Rattle.std.specs.Prelude.{◌≡◌, None, ok_or, refl};

use crate::Object;
use crate::answers::{DONE, OUT_OF_REACH, UNKNOWN_CODE};
use crate::history::History;

// The number of titles.
const TITLES: usize = 64;

// The highest number of a title.
const LAST_TITLE: u8 = 63;

// The highest number of a client that may receive a title.
const LAST_RECEIVER: u8 = 15;

// The code of a reading of one title.
const STATE: u8 = 1;

// One title's state.
#[derive(Clone, Copy, PartialEq, Eq, Debug)]
pub enum Title {
    Unissued,
    HeldBy(u8),
    Surrendered,
}

// What an operation asks for.
#[derive(Clone, Copy, PartialEq, Eq, Debug)]
enum Act {
    Issue,
    Transfer,
    Surrender,
}

// A code that stands for no act.
#[derive(Clone, Copy, PartialEq, Eq, Debug)]
struct UnknownCode(u8);

// Why an act is refused.
#[derive(Clone, Copy, PartialEq, Eq, Debug)]
enum Fault {
    // the title or the receiver does not exist
    OutOfRange,
    // the writer may not do this
    NotEntitled,
    // the title is not in the state that the act needs
    WrongState,
}

// The number that a reading gives.
impl From<Title> for u64 {
    ghost from_gives = { λ title number. number ≡ shown_as title };

    fn from(title: Title) -> u64 {
        match title {
            Title::Unissued => 16,
            Title::HeldBy(holder) => holder.into(),
            Title::Surrendered => 17,
        }
    }
}

impl TryFrom<u8> for Act {
    type Error = UnknownCode;

    ghost try_from_gives = { λ code act. act ≡ ok_or (act_of code) (record { 0 = code }) };

    fn try_from(code: u8) -> Result<Act, UnknownCode> {
        match code {
            1 => Ok(Act::Issue),
            2 => Ok(Act::Transfer),
            3 => Ok(Act::Surrender),
            _ => Err(UnknownCode(code)),
        }
    }
}

impl Act {
    // The state that this gives a title.
    fn outcome(self, receiver: u8) -> Title
        ensures { result ≡ outcome_of self receiver }
    {
        match self {
            Act::Issue | Act::Transfer => Title::HeldBy(receiver),
            Act::Surrender => Title::Surrendered,
        }
    }
}

impl From<Fault> for u64 {
    ghost from_gives = { λ fault number. number ≡ fault_number fault };

    fn from(fault: Fault) -> u64 {
        match fault {
            Fault::OutOfRange => 1,
            Fault::NotEntitled => 2,
            Fault::WrongState => 3,
        }
    }
}

// Judges an act: the first test that fails decides the answer.
fn judge(
    titles: &[Title; TITLES],
    act: Act,
    client: u8,
    title: u8,
    receiver: u8,
) -> Result<(), Fault>
    ensures { result ≡ judged titles.now act client title receiver }
{
    // a limit of the rules, and no length: a client needs no entry here to receive a title
    let receiver_exists = match act {
        Act::Issue | Act::Transfer => receiver <= LAST_RECEIVER,
        Act::Surrender => true,
    };
    if title > LAST_TITLE || !receiver_exists {
        return Err(Fault::OutOfRange);
    }
    let entitled = match (act, titles[usize::from(title)]) {
        (Act::Issue, Title::Unissued) => client == 0,
        (Act::Transfer | Act::Surrender, Title::HeldBy(holder)) => client == holder,
        _ => return Err(Fault::WrongState),
    };
    if !entitled {
        return Err(Fault::NotEntitled);
    }
    Ok(())
}

// Carries an act out, if it passes the tests.
fn carry_out(
    titles: &mut [Title; TITLES],
    act: Act,
    client: u8,
    title: u8,
    receiver: u8,
) -> Result<(), Fault>
    ensures answer { result ≡ judged titles.old act client title receiver }
    ensures after { titles.new ≡ acted (judged titles.old act client title receiver) titles.old act title receiver }
{
    judge(titles, act, client, title, receiver)?;
    titles[usize::from(title)] = act.outcome(receiver);
    Ok(())
}

// The 64 titles, with the titles before the last write until they are taken back.
#[derive(Clone, Copy)]
pub struct Titles {
    history: History<[Title; TITLES]>,
}

impl Titles {
    // All unissued, with nothing to take back.
    pub fn new() -> Self
        ensures { titles_held result ≡ record { value = titles_first; before = None } }
    {
        Titles {
            history: History::new([Title::Unissued; TITLES]),
        }
    }

    // The state of a title, where there is such a title.
    pub fn at(&self, title: u8) -> Option<Title>
        ensures { result ≡ title_at (titles_held self.now).value title }
    {
        self.history.value.get(usize::from(title)).copied()
    }
}

impl Object for Titles {
    ghost rules = { titles_rules };

    ghost holds = { titles_held };

    ghost HIGHEST = { 3 };

    const HIGHEST: u8 = 3;

    ghost highest_is = { refl };

    fn perform(&mut self, client: u8, operation: &[u8; 16]) -> u64 {
        let [code, title, receiver, ..] = *operation;
        let Ok(act) = Act::try_from(code) else {
            return UNKNOWN_CODE;
        };
        let mut titles = self.history.value;
        let answer = carry_out(&mut titles, act, client, title, receiver);
        self.history.write(titles);
        answer.map_or_else(u64::from, |()| DONE)
    }

    fn take_back(&mut self) -> bool {
        self.history.take_back()
    }

    // Both kinds of object read so. A function for both would take the code, the test and the number of each, and be longer.
    fn look(&self, operation: &[u8; 16]) -> u64 {
        let [code, title, ..] = *operation;
        if code != STATE {
            return UNKNOWN_CODE;
        }
        self.at(title).map_or(OUT_OF_REACH, u64::from)
    }
}
