//! The slots that replies are filed in.
use finder::SITES;
use record::Record;

/// The slot of one site: the reply of that site which is filed, if any, with its seal.
#[derive(Clone, Copy, PartialEq, Eq)]
pub struct Slot {
    pub filed: Option<Record>,
}

/// A slot for each site. An array, since an office allocates nothing.
#[derive(Clone, Copy, PartialEq, Eq)]
pub struct Slots {
    pub at: [Slot; SITES],
}

/// Nobody has replied.
pub const EMPTY: Slots = Slots {
    at: [Slot { filed: None }; SITES],
};
