// Calls that may change an object, as values: a host that keeps a journal of them can make them again.
ghost use Rattle.object.specs.Calls.{called, run};
ghost use Rattle.std.specs.Prelude.{◌≡◌};

use crate::Object;

// One such call.
#[derive(Clone, Copy)]
pub enum Call {
    Perform { client: u8, operation: [u8; 16] },
    TakeBack,
}

// Makes one call.
pub fn apply<O: Object>(object: &mut O, call: &Call)
    ensures { O.holds object.new ≡ called O.rules (O.holds object.old) call.now }
{
    match call {
        Call::Perform { client, operation } => {
            let _ = object.perform(*client, operation);
        }
        Call::TakeBack => {
            let _ = object.take_back();
        }
    }
}

// Makes each call of a list, one after another.
#[tactic(auto, using(std::proofs::lemmas::List::at_drop_more, std::proofs::lemmas::List::at_drop_all))]
pub fn replay<O: Object>(object: &mut O, calls: &[Call])
    ensures { O.holds object.new ≡ run O.rules (O.holds object.old) calls.now }
{
    for call in calls {
        apply(object, call);
    }
}
