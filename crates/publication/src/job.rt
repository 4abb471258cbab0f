//! An address to look up.

ghost use Rattle.std.specs.Prelude.{◌≡◌, ◌<◌, length};
ghost use Rattle.publication.specs.Lists.{generation_of};

use crate::name::FabricName;
use crate::told::Told;

/// An address to look up at the router of `told`, in an image no older than that.
#[derive(Drop)]
pub struct Job<B: FabricName> {
    pub number: u64,
    pub addr: u32,
    pub told: Told<B>,
}

impl<B: FabricName> Job<B> {
    /// A copy.
    pub fn again(&self) -> Job<B>
        ensures { result ≡ self.now }
    {
        Job {
            number: self.number,
            addr: self.addr,
            told: self.told.again(),
        }
    }

    /// The number of the router at which the address is looked up, which is one of the fabric's.
    pub fn router(&self) -> u16
        ensures router { result ≡ self.now.told.router }
        ensures known { result < length B.books }
    {
        self.told.router()
    }

    /// The generation of the list that the job was told of: no older image answers it.
    pub fn generation(&self) -> u64
        ensures { result ≡ generation_of self.now.told }
    {
        self.told.generation()
    }
}
