//! Who signs a record.
ghost use Rattle.std.specs.Prelude.{◌≡◌};
ghost use Rattle.notary.specs.Keys.{party_of};

use record::Kind;

/// Those who sign records: clients, numbered from 0, and sites, numbered from 0.
#[derive(Clone, Copy)]
pub enum Party {
    Client,
    Site,
}

impl Party {
    /// Who signs records of a kind. Nobody signs a record that asks to be shown something.
    pub fn signing(kind: Kind) -> Option<Party>
        ensures { result ≡ party_of kind }
    {
        match kind {
            Kind::Request | Kind::Question => Some(Party::Client),
            Kind::Grant | Kind::Answer | Kind::ReadAnswer | Kind::Start => Some(Party::Site),
            Kind::ShowGrant | Kind::ShowCert => None,
        }
    }
}
