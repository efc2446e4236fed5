//! A site under test, with the buffers of its calls.
use crate::cases::Case;
use notary::KeyedNotary;
use object::titles::Titles;
use site::site::Site;

/// The buffers of the calls, and what the replies come to.
#[derive(Clone, Copy)]
pub struct Desk {
    output: [u8; 880],
    board: [u8; 16],
    pub sum: u64,
}

impl Desk {
    pub fn new() -> Desk {
        Desk {
            output: [0; 880],
            board: [0; 16],
            sum: 0,
        }
    }

    /// Makes a call, and says how many bytes were written. A refusal counts by its number.
    fn call(&mut self, site: &mut Site<KeyedNotary, Titles>, message: &[u8]) -> usize {
        match site.call(message, &mut self.output, &mut self.board) {
            Ok(n) => n,
            Err(refusal) => {
                self.sum = self.sum.wrapping_add(1000 + u64::from(refusal.number));
                0
            }
        }
    }

    /// The site that a case begins with.
    fn begun(&mut self, notary: &KeyedNotary, case: &Case) -> Site<KeyedNotary, Titles> {
        let mut site = Site::new(case.f, 0, *notary, Titles::new());
        let _ = self.call(&mut site, case.first.as_slice());
        site
    }

    /// Takes all bytes of all replies of one lap into the sum.
    pub fn checked(&mut self, notary: &KeyedNotary, case: &Case) {
        let mut site = self.begun(notary, case);
        for message in &case.messages {
            let n = self.call(&mut site, message.as_slice());
            for byte in self.output.iter().take(n) {
                self.sum = (self.sum ^ u64::from(*byte)).wrapping_mul(0x100_0000_01b3);
            }
        }
    }

    /// Takes a few bytes of each reply of one lap into the sum.
    pub fn lap(&mut self, notary: &KeyedNotary, case: &Case) {
        let mut site = self.begun(notary, case);
        for message in &case.messages {
            let n = self.call(&mut site, message.as_slice());
            let few = u64::from(self.output[15]) + u64::from(self.output[39]);
            self.sum = self.sum.wrapping_add(n as u64).wrapping_add(few);
        }
    }
}
