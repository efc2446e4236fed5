// Objects: what a pool keeps a copy of at each of its sites.
//
// An object is known by its meaning alone: a value now, and after a write the value before it. Whatever
// is proved of a site is proved over this trait, and so holds of every object that keeps its meaning.
//
// There are two kinds: `titles`, who holds each of 64 bills of lading, and `slots`, how many slots each of
// 16 accounts holds. Each answers every client and every operation as its rules in specs/ say, allocates
// nothing, and keeps the laws of `laws`. A client's number is taken as given: that a request comes from
// that client is left to the caller.
#![tactic(auto)]

ghost use Rattle.object.specs.Rules.{Rules, Moment, fit};
ghost use Rattle.std.specs.Prelude.{◌≡◌, ℕ, if◌then◌else◌, Some, None, is_some, unwrap_or};

mod accounts;
pub mod answers;
pub mod calls;
mod history;
pub mod laws;
pub mod slots;
pub mod titles;

pub trait Object {
    // what the values are, and what each call answers and does
    ghost rules: { Rules };

    // the value now, and the value before the last write, until it is taken back
    ghost holds: { Self → Moment rules.Value };

    // the highest operation code that this kind of object knows
    ghost HIGHEST: { ℕ };

    const HIGHEST: u8;

    // Moves to the next value and answers. The value that it leaves is remembered, where the operation is fit.
    fn perform(&mut self, client: u8, operation: &[u8; 16]) -> u64
        ensures answer { result ≡ rules.answer (holds self.old).value client operation.now }
        ensures after { (holds self.new).value ≡ rules.next (holds self.old).value client operation.now }
        ensures remembered { (holds self.new).before ≡ (if fit rules.highest operation.now then Some (holds self.old).value else (holds self.old).before) };

    // Restores the value before the last write, once; says no, and changes nothing, where there is none.
    fn take_back(&mut self) -> bool
        ensures said { result ≡ is_some (holds self.old).before }
        ensures after { (holds self.new).value ≡ unwrap_or (holds self.old).before (holds self.old).value }
        ensures forgotten { (holds self.new).before ≡ None };

    // Answers a reading, and changes nothing.
    fn look(&self, operation: &[u8; 16]) -> u64
        ensures { result ≡ rules.look (holds self.now).value operation.now };

    // The constant is the highest code of the meaning.
    ghost highest_is: { HIGHEST ≡ rules.highest };
}
