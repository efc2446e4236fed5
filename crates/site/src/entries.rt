//! Tables with an entry for each client.
ghost use Rattle.site.specs.Tables.{entry};
ghost use Rattle.std.specs.Prelude.{◌≡◌, slice_set};

/// A client's entry. The mark has none.
pub fn get<T: Copy>(table: &[Option<T>], client: u8) -> Option<T>
    ensures { result ≡ entry table.now client }
{
    table.get(usize::from(client)).copied().flatten()
}

/// Sets a client's entry, where it has one.
#[tactic(auto, using(std::proofs::lemmas::List::set_past))]
pub fn put<T: Copy>(table: &mut [Option<T>], client: u8, value: Option<T>)
    ensures { table.new ≡ slice_set table.old client value }
{
    let i = usize::from(client);
    // the length is asked, and no `get_mut`: what it lends of a generic slice tells nothing of the slice once it ends
    if i < table.len() {
        table[i] = value;
    }
}
