// Sixteen accounts of slots, whose total never changes.
ghost use Rattle.std.specs.Prelude.{◌≡◌, ◌+◌, ◌^◌, ◌<◌, ◌≤◌};
ghost use Rattle.object.specs.Accounts.{all_slots, slots_first, holding, less, more, moved, total as total_of};

// The number of accounts.
pub const ACCOUNTS: usize = 16;

// What the accounts hold. The total keeps every sum far below what a `u32` holds. An array, since an object allocates nothing.
#[derive(Clone, Copy)]
pub struct Accounts {
    pub balances: [u32; ACCOUNTS],
    ghost kept: { total_of balances ≡ all_slots },
}

impl Accounts {
    // Account 0 holds all slots.
    pub fn first() -> Self
        ensures { result.balances ≡ slots_first }
    {
        let mut balances = [0; ACCOUNTS];
        balances[0] = 1_000_000;
        Accounts { balances }
    }

    // Moves an amount from an account that holds it to another.
    #[tactic(auto, using(crate::proofs::Totals::moved_total, crate::proofs::Totals::moved_fits))]
    pub fn transfer(&mut self, from: usize, to: usize, amount: u32)
        requires gives { from < 16 }
        requires takes { to < 16 }
        requires enough { amount ≤ holding self.old.balances from }
        ensures { self.new.balances ≡ moved self.old.balances from to amount }
    {
        withdraw(&mut self.balances, from, amount);
        deposit(&mut self.balances, to, amount);
    }
}

// Takes an amount from an account that holds it.
fn withdraw(balances: &mut [u32; ACCOUNTS], account: usize, amount: u32)
    requires exists { account < 16 }
    requires enough { amount ≤ holding balances.old account }
    ensures { balances.new ≡ less balances.old account amount }
{
    balances[account] -= amount;
}

// Adds an amount to an account.
fn deposit(balances: &mut [u32; ACCOUNTS], account: usize, amount: u32)
    requires exists { account < 16 }
    requires fits { holding balances.old account + amount < 2 ^ 32 }
    ensures { balances.new ≡ more balances.old account amount }
{
    balances[account] += amount;
}
