// Slots: sixteen accounts, one for each client, among which slots are moved.
//
// An operation has its code in byte 0 (1 moves), the account that receives in byte 1 and the amount in
// bytes 2 to 5, high byte first; no other byte is read. The writer's number is the account that gives.
ghost use Rattle.object.specs.Accounts.{all_slots, slots_first, total as total_of};
ghost use Rattle.object.specs.Slots.{judged, acted, number as number_of, fault_number, amount as amount_of, balance_at, slots_rules, slots_held};
ghost use Rattle.std.specs.Prelude.{◌≡◌, None, refl};

use crate::Object;
use crate::accounts::Accounts;
use crate::answers::{DONE, OUT_OF_REACH, UNKNOWN_CODE};
use crate::history::History;

// The highest number of an account.
const LAST_ACCOUNT: u8 = 15;

// The code of a write that moves slots.
const MOVE: u8 = 1;

// The code of a reading of one account.
const BALANCE: u8 = 1;

// Why a move is refused.
#[derive(Clone, Copy, PartialEq, Eq, Debug)]
enum Fault {
    // one of the two accounts does not exist
    OutOfRange,
    // the writer's account holds less than the amount
    TooFew,
}

impl From<Fault> for u64 {
    ghost from_gives = { λ fault number. number ≡ fault_number fault };

    fn from(fault: Fault) -> u64 {
        match fault {
            Fault::OutOfRange => 1,
            Fault::TooFew => 2,
        }
    }
}

// Judges a move: the first test that fails decides the answer.
fn judge(accounts: &Accounts, from: u8, to: u8, amount: u32) -> Result<(), Fault>
    ensures { result ≡ judged accounts.now.balances from to amount }
{
    if from > LAST_ACCOUNT || to > LAST_ACCOUNT {
        return Err(Fault::OutOfRange);
    }
    if accounts.balances[usize::from(from)] < amount {
        return Err(Fault::TooFew);
    }
    Ok(())
}

// Moves an amount, if that passes the tests.
fn transfer(accounts: &mut Accounts, from: u8, to: u8, amount: u32) -> Result<(), Fault>
    ensures answer { result ≡ judged accounts.old.balances from to amount }
    ensures after { accounts.new.balances ≡ acted (judged accounts.old.balances from to amount) accounts.old.balances from to amount }
{
    judge(accounts, from, to, amount)?;
    accounts.transfer(usize::from(from), usize::from(to), amount);
    Ok(())
}

// The amount that an operation names.
fn amount(operation: &[u8; 16]) -> u32
    ensures { result ≡ amount_of operation.now }
{
    let [_, _, a, b, c, d, ..] = *operation;
    u32::from_be_bytes([a, b, c, d])
}

// The sixteen accounts, with the accounts before the last write until they are taken back.
#[derive(Clone, Copy)]
pub struct Slots {
    history: History<Accounts>,
}

impl Slots {
    // Account 0 holds all slots, and there is nothing to take back.
    pub fn new() -> Self
        ensures { slots_held result ≡ record { value = slots_first; before = None } }
    {
        Slots {
            history: History::new(Accounts::first()),
        }
    }

    // What an account holds, where there is such an account.
    pub fn balance(&self, account: u8) -> Option<u32>
        ensures { result ≡ balance_at (slots_held self.now).value account }
    {
        self.history
            .value
            .balances
            .get(usize::from(account))
            .copied()
    }

    // What all accounts hold together, which is the same at all times.
    pub fn total(&self) -> u32
        ensures sum { result ≡ total_of (slots_held self.now).value }
        ensures constant { result ≡ all_slots }
    {
        self.history.value.balances.iter().sum()
    }
}

impl Object for Slots {
    ghost rules = { slots_rules };

    ghost holds = { slots_held };

    ghost HIGHEST = { 1 };

    const HIGHEST: u8 = 1;

    ghost highest_is = { refl };

    fn perform(&mut self, client: u8, operation: &[u8; 16]) -> u64 {
        let [code, account, ..] = *operation;
        if code != MOVE {
            return UNKNOWN_CODE;
        }
        let mut accounts = self.history.value;
        let answer = transfer(&mut accounts, client, account, amount(operation));
        self.history.write(accounts);
        answer.map_or_else(u64::from, |()| DONE)
    }

    fn take_back(&mut self) -> bool {
        self.history.take_back()
    }

    // Both kinds of object read so. A function for both would take the code, the test and the number of each, and be longer.
    fn look(&self, operation: &[u8; 16]) -> u64 {
        let [code, account, ..] = *operation;
        if code != BALANCE {
            return UNKNOWN_CODE;
        }
        self.balance(account).map_or(OUT_OF_REACH, u64::from)
    }
}
