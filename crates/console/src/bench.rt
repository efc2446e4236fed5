// One object alone, without a pool, and the requests and questions that its clients put to it.
ghost use Rattle.console.specs.Requests.{next_number};
ghost use Rattle.record.specs.Claims.{request, question};
ghost use Rattle.std.specs.Prelude.{◌≡◌, slice_set, is_some, unwrap_or};

use object::Object;
use record::{Operation, Statement};

// The last number that each client gave a request. An array with a place for every number of a client, so that no call can fail; a map
// could, for want of memory.
#[derive(Clone, Copy)]
struct Numbers {
    last: [u32; 256],
}

impl Numbers {
    // The client's next number; the highest one stays.
    fn next(&mut self, client: u8) -> u32
        ensures number { result ≡ next_number self.old.last client }
        ensures after { self.new.last ≡ slice_set self.old.last client result }
    {
        let number = self.last[usize::from(client)].saturating_add(1);
        self.last[usize::from(client)] = number;
        number
    }
}

// What a write or a reading was answered, and the record that asked for it.
#[derive(Clone, Copy)]
pub struct Answered {
    pub answer: u64,
    pub asked: Statement,
}

// An object with its clients' numbers.
#[derive(Clone, Copy)]
pub struct Bench<O: Object> {
    object: O,
    numbers: Numbers,
}

impl<O: Object> Bench<O> {
    pub fn new(object: O) -> Bench<O>
        ensures { result.object ≡ object }
    {
        Bench {
            object,
            numbers: Numbers { last: [0; 256] },
        }
    }

    // A client writes: the object performs.
    pub fn write(&mut self, client: u8, operation: &Operation) -> Answered
        ensures answer { result.answer ≡ O.rules.answer (O.holds self.old.object).value client operation.now }
        ensures after { (O.holds self.new.object).value ≡ O.rules.next (O.holds self.old.object).value client operation.now }
        ensures asked { result.asked ≡ request client (next_number self.old.numbers.last client) operation.now }
    {
        let number = self.numbers.next(client);
        let answer = self.object.perform(client, operation);
        Answered {
            answer,
            asked: Statement::request(client, number, operation),
        }
    }

    // A client reads: the object is looked at.
    pub fn look(&self, client: u8, operation: &Operation, nonce: u64) -> Answered
        ensures answer { result.answer ≡ O.rules.look (O.holds self.now.object).value operation.now }
        ensures asked { result.asked ≡ question client operation.now nonce }
    {
        Answered {
            answer: self.object.look(operation),
            asked: Statement::question(client, operation, nonce),
        }
    }

    // Takes the last write back, if there is one.
    pub fn take_back(&mut self) -> bool
        ensures said { result ≡ is_some (O.holds self.old.object).before }
        ensures after { (O.holds self.new.object).value ≡ unwrap_or (O.holds self.old.object).before (O.holds self.old.object).value }
    {
        self.object.take_back()
    }
}
