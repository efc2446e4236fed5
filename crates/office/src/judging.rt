//! Judging: the verdict over the replies that are filed, and the records that go with it.
ghost use Rattle.std.specs.Prelude.{◌≡◌, ◌≤◌};
ghost use Rattle.finder.specs.Members.{members};
ghost use Rattle.office.specs.Judging.{lead as lead_of, is_ours, judged_heard, judged_reading, by_place, place_sites, by_claim, claim_sites, judged as judged_by, Sized};
ghost use Rattle.office.specs.Laws.{ByHeard, ByPlace as Right-place, ByClaim as Right-claim, Warranted, ReadingWarranted};
ghost use Rattle.std.specs.Option.{option_map};

use crate::asking::Write;
use crate::filing::filed;
use crate::lateness::latest;
use crate::likeness::{Heard, OfKind};
use crate::likening::{ButSigner, OneClaim, OnePlace};
use crate::slots::Slot;
use crate::verdict::Verdict;
use finder::{Group, find};
use record::{Claim, Kind, Statement};

/// A verdict, with the sites whose records go with it.
#[derive(Clone, Copy)]
pub(crate) struct Finding {
    pub verdict: Verdict,
    pub group: Option<Group>,
}

/// What the first site of a group states.
fn lead(slots: &[Slot], group: &Group) -> Statement
    ensures { result ≡ lead_of slots.now (members group.now) }
{
    group
        .first()
        .and_then(|site| filed(slots, site))
        .map_or(Statement::NOTHING, |reply| reply.statement)
}

/// Whether a claim is that of the open write.
fn is_ours(client: u8, write: &Option<Write>, claim: &Claim) -> bool
    ensures { result ≡ is_ours client write.now claim.now }
{
    write.is_some_and(|write| write.is_claimed(client, claim))
}

/// What is heard: the slots that hold the replies, and how many of them make a quorum.
#[derive(Clone, Copy)]
pub(crate) struct Hearing<'a> {
    pub q: usize,
    pub slots: &'a [Slot],
}

impl Hearing<'_> {
    /// CATCH or WAIT: whether a quorum is heard.
    fn heard(&self) -> Verdict
        ensures value { result ≡ judged_heard self.now.q self.now.slots.now }
        ensures right { ByHeard self.now.q self.now.slots.now result }
    {
        match find(&Heard {}, self.slots, self.q) {
            Some(_) => Verdict::Catch {
                site: latest(self.slots),
            },
            None => Verdict::Wait,
        }
    }

    /// CLASH, CATCH or WAIT.
    fn clashing(&self) -> Finding
        ensures verdict { result.verdict ≡ (by_place self.now.q self.now.slots.now (place_sites self.now.q self.now.slots.now)).verdict }
        ensures sites { option_map members result.group ≡ (by_place self.now.q self.now.slots.now (place_sites self.now.q self.now.slots.now)).sites }
        ensures size { Sized self.now.q (option_map members result.group) }
        ensures right { Right-place self.now.q self.now.slots.now result.verdict (option_map members result.group) }
    {
        match find(
            &OfKind {
                kind: Kind::Grant,
                likening: OnePlace {},
            },
            self.slots,
            self.q,
        ) {
            Some(group) => Finding {
                verdict: Verdict::Clash,
                group: Some(group),
            },
            None => Finding {
                verdict: self.heard(),
                group: None,
            },
        }
    }

    /// CERTIFY, BACK, CLASH, CATCH or WAIT.
    fn granted(&self, client: u8, write: &Option<Write>) -> Finding
        ensures verdict { result.verdict ≡ (by_claim self.now.q client write.now self.now.slots.now (claim_sites self.now.q self.now.slots.now)).verdict }
        ensures sites { option_map members result.group ≡ (by_claim self.now.q client write.now self.now.slots.now (claim_sites self.now.q self.now.slots.now)).sites }
        ensures size { Sized self.now.q (option_map members result.group) }
        ensures right { Right-claim self.now.q client write.now self.now.slots.now result.verdict (option_map members result.group) }
    {
        let Some(group) = find(
            &OfKind {
                kind: Kind::Grant,
                likening: OneClaim {},
            },
            self.slots,
            self.q,
        ) else {
            return self.clashing();
        };
        let verdict = if is_ours(client, write, &lead(self.slots, &group).claim()) {
            Verdict::Certify
        } else {
            Verdict::Back
        };
        Finding {
            verdict,
            group: Some(group),
        }
    }

    /// The verdict over the slots of a write: the first that applies.
    pub(crate) fn judge(&self, client: u8, write: &Option<Write>) -> Finding
        ensures verdict { result.verdict ≡ (judged_by self.now.q client write.now self.now.slots.now).verdict }
        ensures sites { option_map members result.group ≡ (judged_by self.now.q client write.now self.now.slots.now).sites }
        ensures size { Sized self.now.q (option_map members result.group) }
        ensures right { Warranted self.now.q client write.now self.now.slots.now result.verdict (option_map members result.group) }
    {
        match find(
            &OfKind {
                kind: Kind::Answer,
                likening: ButSigner {},
            },
            self.slots,
            self.q,
        ) {
            Some(group) => Finding {
                verdict: Verdict::Done {
                    answer: lead(self.slots, &group).answer,
                },
                group: None,
            },
            None => self.granted(client, write),
        }
    }

    /// The verdict over the slots of a question.
    pub(crate) fn judge_reading(&self) -> Verdict
        ensures value { result ≡ judged_reading self.now.q self.now.slots.now }
        ensures right { ReadingWarranted self.now.q self.now.slots.now result }
    {
        match find(
            &OfKind {
                kind: Kind::ReadAnswer,
                likening: ButSigner {},
            },
            self.slots,
            self.q,
        ) {
            Some(group) => Verdict::Done {
                answer: lead(self.slots, &group).answer,
            },
            None => self.heard(),
        }
    }
}
