//! A reader.

ghost use Rattle.std.specs.Prelude.{◌≡◌, ◌⊎◌, ◌↔◌, false, IfOk, IsTrue, OnErr};
ghost use Rattle.left_right.specs.Sides.{view};
ghost use Rattle.network_model.specs.Publication.{answer_of};
ghost use Rattle.publication.specs.Lists.{Begins, image_of};

use crate::edition::Edition;
use crate::known::Known;
use crate::name::FabricName;
use crate::rule::{Sees, Shown};
use crate::told::Told;
use faults::FaultKind;
use left_right::reader::Reader;
use network_model::{Answer, Refusal};
use std::alloc::{Allocator, Global};
use std::marker::Model;
use thiserror::Error;

/// The writer is closed. By its contract `left_right` may give a reader no copy in other cases too,
/// or an older one than it was told of; it does not.
#[derive(Clone, Copy, Debug, PartialEq, Eq, Drop, Error)]
#[error("{}", FaultKind::from(*self))]
pub struct NoImage;

impl From<NoImage> for FaultKind {
    ghost use Rattle.faults.specs.declared.kind.FaultKind.TheVariants.{NoImage as ImageKind};

    ghost from_gives = { λ _ k. k ≡ ImageKind };

    fn from(_fault: NoImage) -> FaultKind {
        FaultKind::NoImage
    }
}

impl From<NoImage> for Refusal {
    ghost use Rattle.network_model.specs.declared.step.Refusal.TheVariants.{NoImage as WithoutImage};

    ghost from_gives = { λ _ e. e ≡ WithoutImage };

    fn from(_fault: NoImage) -> Refusal {
        Refusal::NoImage
    }
}

/// What a reader meets while it holds an image.
pub trait ReadGate {
    /// Called while the image is held: its writer cannot change it meanwhile.
    fn inside(&self);
}

// A gate that is always open.
struct NoGate;

impl ReadGate for NoGate {
    fn inside(&self) {}
}

/// Looks addresses up, with no lock and no wait. Contracts see it as its view: the list that its
/// writer had after some of its publications, or before the first.
#[derive(Drop)]
pub struct ImageReader<B: FabricName, A: Allocator = Global> {
    reader: Option<Reader<Edition<B, A>, Option<Known>, Shown<B>, A>>,
    told: Told<B>,
    // It has seen no copy since it was told of its list.
    ahead: bool,
}

impl<B: FabricName, A: Allocator> Model for ImageReader<B, A> {
    ghost use Rattle.std.specs.Prelude.{◌≡◌, Some, false, IfSome};
    ghost use Rattle.publication.specs.declared.known.Known.{Known};

    ghost Value = { Known };

    ghost view = { λ r. r.told };

    ghost invariant = { λ r. r.ahead ≡ false
        → IfSome r.reader (λ x. x.place.me.0.client ≡ Some r.told) };
}

// Whether what was seen begins a copy's list. By the rule it does, but where it was told of more than
// it has seen.
fn goes_on<B: FabricName>(seen: &Told<B>, shown: &Told<B>, ahead: bool) -> bool
    requires { ahead ≡ false → Begins seen.now shown.now }
    ensures { IsTrue result ↔ Begins seen.now shown.now }
{
    if ahead { seen.begins(shown) } else { true }
}

impl<B: FabricName, A: Allocator> ImageReader<B, A> {
    pub(crate) fn new(
        reader: Reader<Edition<B, A>, Option<Known>, Shown<B>, A>,
        told: Told<B>,
    ) -> ImageReader<B, A>
        ensures { result ≡ told }
    {
        ImageReader {
            reader: Some(reader),
            told,
            ahead: true,
        }
    }

    /// Looks an address up in the image of the view that it then has: a list that its writer had
    /// after some publication, and no earlier than the view before. It takes no memory. Refused, the
    /// view stays.
    pub fn lookup(&mut self, addr: u32) -> Result<Answer, NoImage>
        ensures later { Begins self.old self.new }
        ensures answer { IfOk result (λ a. a ≡ answer_of (image_of B.openings self.new) addr) }
        ensures refused { OnErr result (self.new ≡ self.old) }
    {
        self.lookup_held(addr, &NoGate)
    }

    /// Looks an address up like `lookup`, and calls the gate while it holds the image.
    #[tactic(auto, using(crate::proofs::Beginnings::begins_self))]
    pub fn lookup_held<G: ReadGate>(&mut self, addr: u32, gate: &G) -> Result<Answer, NoImage>
        ensures later { Begins self.old self.new }
        ensures answer { IfOk result (λ a. a ≡ answer_of (image_of B.openings self.new) addr) }
        ensures refused { OnErr result (self.new ≡ self.old) }
    {
        let Some(reader) = self.reader.take() else {
            return Err(NoImage);
        };
        match reader.enter_as::<Sees<B>>() {
            Ok(reading) => {
                gate.inside();
                let (answer, told) = reading.get().answer(addr);
                self.reader = Some(reading.leave());
                if !goes_on(&self.told, &told, self.ahead) {
                    self.ahead = true;
                    return Err(NoImage);
                }
                self.told = told;
                self.ahead = false;
                Ok(answer)
            }
            Err(reader) => {
                self.reader = Some(reader);
                Err(NoImage)
            }
        }
    }

    /// Its view, as the writer would have told of it.
    pub fn view(&self) -> Told<B>
        ensures { result ≡ self.now }
    {
        self.told.again()
    }

    /// Whether its view is just what was told: its writer has shown it nothing later.
    pub fn is_at(&self, told: &Told<B>) -> bool
        ensures { IsTrue result ↔ (self.now ≡ told.now) }
    {
        self.told.is(told)
    }

    /// From now on the view begins with what was told by this reader's writer.
    pub fn learn(&mut self, told: &Told<B>)
        requires { told.now.router ≡ self.old.router }
        ensures later { Begins self.old self.new }
        ensures told { Begins told.now self.new }
        ensures either { (self.new ≡ self.old) ⊎ (self.new ≡ told.now) }
    {
        self.told = self.told.longer(told);
        self.ahead = true;
    }
}
