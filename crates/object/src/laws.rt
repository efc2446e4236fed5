// What holds of every object of a kind, whatever is done with it. Each function's contract is one law,
// which the check proves; there is nothing to run.
ghost use Rattle.object.specs.Calls.{UnknownCodeChangesNothing, RefusedMovesNothing, TakeBackUndoes};
ghost use Rattle.object.specs.Slots.{slots_rules};
ghost use Rattle.object.specs.SlotsLaws.{TotalNeverChanges, OnlyTheWriterPays, MoveToOneselfChangesNothing};
ghost use Rattle.object.specs.Titles.{titles_rules};
ghost use Rattle.object.specs.TitlesLaws.{SurrenderedStays, SurrenderedForGood, OnlyItsHolderMovesATitle, OnlyClient0Issues, HoldersAreClients};

use crate::Object;

// A surrendered title stays surrendered.
pub fn surrendered_stays()
    ensures performs { SurrenderedStays }
    ensures calls { SurrenderedForGood }
{}

// A title is moved by its holder, and issued by client 0.
pub fn titles_move_by_right()
    ensures held { OnlyItsHolderMovesATitle }
    ensures unissued { OnlyClient0Issues }
{}

// A holder is a client from 0 to 15.
#[tactic(auto, using(crate::proofs::TitlesProofs::holders_are_clients))]
pub fn holders_are_clients()
    ensures { HoldersAreClients }
{}

// The total of the slots never changes.
pub fn total_never_changes()
    ensures { TotalNeverChanges }
{}

// Slots leave no account but the writer's, and a move to oneself changes nothing.
#[tactic(auto, using(crate::proofs::SlotsProofs::only_the_writer_pays, crate::proofs::SlotsProofs::move_to_oneself))]
pub fn only_the_writer_pays()
    ensures pays { OnlyTheWriterPays }
    ensures own { MoveToOneselfChangesNothing }
{}

// An operation of an unknown code changes nothing.
pub fn unknown_code_changes_nothing()
    ensures titles { UnknownCodeChangesNothing titles_rules }
    ensures slots { UnknownCodeChangesNothing slots_rules }
{}

// A write that is refused leaves the value as it was.
pub fn refused_moves_nothing()
    ensures titles { RefusedMovesNothing titles_rules }
    ensures slots { RefusedMovesNothing slots_rules }
{}

// A take-back undoes the last write, once; this holds of every kind of object.
pub fn take_back_undoes<O: Object>()
    ensures { TakeBackUndoes O.rules }
{}
