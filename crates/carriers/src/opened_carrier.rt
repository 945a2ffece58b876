// What a carrier is that can be opened.
ghost use Rattle.std.specs.Prelude.{Result, IfOk};
ghost use Rattle.refusals.specs.declared.Fault.{Fault};
ghost use Rattle.agreement.specs.Meanings.{Fresh};

use crate::carrier::Carrier;
use refusals::Fault;

/// Carriers that are opened, over what opening one takes: a link service, and a chart that the carrier's test let pass.
/// `Carrier` has no word on a carrier just opened, so a type whose values are never sound would meet it; this trait shuts it out.
pub trait OpenedCarrier: Carrier {
    /// What a carrier is opened from.
    type From;

    // what opening does, each carrier's own
    ghost opens: { Self.From → Result Self Fault → Type 0 };

    /// A carrier that nothing was done with. Refused by the link service's start alone.
    fn open_from(from: Self::From) -> Result<Self, Fault>
        ensures exact { opens from result }
        ensures fresh { IfOk result (λ c. Fresh (Self.meaning c)) }
        ensures kept { IfOk result (λ c. Self.sound c) };
}
