// Which fields a statement of each kind may have.
ghost use Rattle.record.specs.Ranges.{by_site, by_client, by_nobody, no_number, no_round_or_place, empty_operation, no_answer, no_nonce, at_place, client_or_mark, claims, in_range_as, in_range};
ghost use Rattle.std.specs.Prelude.{◌≡◌};

use crate::fields::{Place, Statement};
use crate::kind::Kind;
use crate::limits::{HIGHEST_CLIENT, HIGHEST_PLACE, HIGHEST_ROUND, MARK};

impl Statement {
    // Whether a statement is in range, in a pool of 3f+1 sites: it is of a known kind, its byte 3 is zero, and
    // its fields are those of its kind.
    pub fn in_range(&self, f: u8) -> bool
        ensures { result ≡ in_range f self.now }
    {
        self.spare == 0 && Kind::try_from(self.kind).is_ok_and(|kind| self.in_range_as(f, kind))
    }

    // Whether the fields are those of a kind; what the kind does not use is zero.
    fn in_range_as(&self, f: u8, kind: Kind) -> bool
        ensures { result ≡ in_range_as f kind self.now }
    {
        match kind {
            Kind::Request => self.is_request(),
            Kind::Grant => self.by_site(f) && self.claims() && self.answer == 0 && self.nonce == 0,
            Kind::Question => self.is_question(),
            Kind::Answer => self.by_site(f) && self.claims() && self.nonce == 0,
            Kind::ReadAnswer => self.is_read_answer(f),
            Kind::Start => self.is_start(f),
            Kind::ShowGrant => self.is_show_grant(),
            Kind::ShowCert => self.is_show_cert(),
        }
    }

    fn is_request(&self) -> bool
        ensures { result ≡ in_range_as 0 Kind.Request self.now }
    {
        self.by_client()
            && 1 <= self.number
            && self.no_round_or_place()
            && self.answer == 0
            && self.nonce == 0
    }

    fn is_question(&self) -> bool
        ensures { result ≡ in_range_as 0 Kind.Question self.now }
    {
        self.by_client() && self.number == 0 && self.no_round_or_place() && self.answer == 0
    }

    fn is_read_answer(&self, f: u8) -> bool
        ensures { result ≡ in_range_as f Kind.ReadAnswer self.now }
    {
        self.by_site(f) && self.client <= HIGHEST_CLIENT && self.number == 0 && self.at_place(0)
    }

    fn is_start(&self, f: u8) -> bool
        ensures { result ≡ in_range_as f Kind.Start self.now }
    {
        self.by_site(f)
            && self.client == 0
            && self.number == 0
            && self.at_place(0)
            && self.empty_operation()
            && self.answer == 0
            && self.nonce == 0
    }

    fn is_show_grant(&self) -> bool
        ensures { result ≡ in_range_as 0 Kind.ShowGrant self.now }
    {
        self.by_nobody()
            && self.number == 0
            && self.round == 0
            && self.at_place(1)
            && self.empty_operation()
            && self.answer == 0
            && self.nonce == 0
    }

    fn is_show_cert(&self) -> bool
        ensures { result ≡ in_range_as 0 Kind.ShowCert self.now }
    {
        self.by_nobody()
            && self.number == 0
            && self.no_round_or_place()
            && self.empty_operation()
            && self.answer == 0
            && self.nonce == 0
    }

    // The fields of a claim: a client or the mark, a number from 1, a round, and a place from 1.
    fn claims(&self) -> bool
        ensures { result ≡ claims self.now }
    {
        self.client_or_mark() && 1 <= self.number && self.at_place(1)
    }

    // The mark of a round has the round's number and no operation; every other client is one of the sixteen.
    fn client_or_mark(&self) -> bool
        ensures { result ≡ client_or_mark self.now }
    {
        if self.client == MARK {
            self.number == self.round && self.empty_operation()
        } else {
            self.client <= HIGHEST_CLIENT
        }
    }

    // The signer is a site of a pool of 3f+1.
    fn by_site(&self, f: u8) -> bool
        ensures { result ≡ by_site f self.now }
    {
        u16::from(self.signer) <= 3 * u16::from(f)
    }

    // The signer is the client itself.
    fn by_client(&self) -> bool
        ensures { result ≡ by_client self.now }
    {
        self.signer == self.client && self.client <= HIGHEST_CLIENT
    }

    // Nobody signed and no client is named.
    fn by_nobody(&self) -> bool
        ensures { result ≡ by_nobody self.now }
    {
        self.signer == 0 && self.client == 0
    }

    fn no_round_or_place(&self) -> bool
        ensures { result ≡ no_round_or_place self.now }
    {
        self.round == 0 && self.place == 0
    }

    // Round and place within their limits, the place from a lowest one on.
    fn at_place(&self, lowest: Place) -> bool
        ensures { result ≡ at_place lowest self.now }
    {
        self.round <= HIGHEST_ROUND && (lowest..=HIGHEST_PLACE).contains(&self.place)
    }

    fn empty_operation(&self) -> bool
        ensures { result ≡ empty_operation self.now }
    {
        self.operation == [0; 16]
    }
}
