// A worked example, proved of the definitions.
ghost use Rattle.std.specs.Prelude.{◌≡◌};
ghost use Rattle.flight.specs.ToilOfTwo.{ToilOfTwo};

use carriers::{Carrier, Direct};
use links::LinkService;
use matter::Matter;

/// The toil of two craft over a direct carrier after their first order: in a flight just opened on a carrier just opened, over any link service and
/// for matter of any type, whoever orders what under which number. Two frames wait, of the Send and of its author's own Echo; of the 32 Echoes and
/// Readies of two craft this Echo was said, and for each of the others the carrier's G is added, which is 7. The answer is that toil.
pub fn worked_toil<L: LinkService, M: Matter>() -> u128
    ensures answer { result ≡ 219 }
    ensures toil { ToilOfTwo M L.LinkService.meaning M.kinds }
{
    let (waiting, notes, said) = (2, 32, 1);
    waiting + u128::from(<Direct<L> as Carrier>::G) * (notes - said)
}
