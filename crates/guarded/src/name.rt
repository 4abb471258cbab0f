//! Which control it is, and the ledgers that are named by it.

use std::marker::{Brand, PhantomData};
use std::sync::ledger::Ledger;

/// Which control it is: the names of its three ledgers and the number of its shares, how many writers were
/// out when it was made, the fabric from which it began, and the steps that may be asked for. A generic function has it as a type parameter, and its
/// caller chooses it.
pub trait ControlName {
    ghost use Rattle.std.specs.Prelude.{ℕ, Bool};
    ghost use Rattle.network_model.specs.declared.step.Step.{Step};
    ghost use Rattle.fabric.specs.Fabric.{Fabric as FabricState};

    ghost high: { ℕ };

    ghost low: { ℕ };

    ghost out: { ℕ };

    ghost shares: { ℕ };

    ghost lent: { ℕ };

    ghost opened: { FabricState };

    ghost asked: { Step → Bool };
}

impl ControlName for Brand {
    ghost use Rattle.guarded.specs.Served.{no_fabric, none_asked};

    ghost high = { 0 };

    ghost low = { 0 };

    ghost out = { 0 };

    ghost shares = { 0 };

    ghost lent = { 0 };

    ghost opened = { no_fabric };

    ghost asked = { none_asked };
}

/// The ledger of what the numbers of the steps come to in units of 2^64.
pub struct High<N>(PhantomData<N>);

impl<N: ControlName> Ledger for High<N> {
    ghost name = { N.high };

    ghost parts = { N.shares };
}

/// The ledger of the rest.
pub struct Low<N>(PhantomData<N>);

impl<N: ControlName> Ledger for Low<N> {
    ghost name = { N.low };

    ghost parts = { N.shares };
}

/// The ledger of the writers that holders have out.
pub struct Out<N>(PhantomData<N>);

impl<N: ControlName> Ledger for Out<N> {
    ghost name = { N.out };

    ghost parts = { N.shares };
}
