// Agreement among the craft of a flight, whatever carries its notes: theorems, each on the contract of a function.
#![tactic(auto)]

ghost use Rattle.std.specs.Prelude.{◌≡◌, ℕ, List};
ghost use Rattle.matter.specs.Layouts.{Kind};
ghost use Rattle.agreement.specs.Agreement.{Agreement};
ghost use Rattle.agreement.specs.Lives.{AgreementOver};
ghost use Rattle.agreement.specs.Meanings.{Meaning, Lawful};
ghost use Rattle.agreement.specs.Possible.{Possible};
ghost use Rattle.agreement.specs.RefusedExactly.{RefusedExactly};
ghost use Rattle.agreement.specs.Rest.{RestReached};
ghost use Rattle.agreement.specs.SplitSends.{SplitHeard};

// Two craft that are not astray agree, after every list of calls, over every carrier that keeps the two laws:
// (a) what was delivered to them or booked by them for one origin and number is one word, which the origin ordered if it is not astray;
// (b) when nothing waits they have deliveries for the same origins and numbers, and every order of a craft that is not astray;
// (c) carries alone come to an end.
// The answer is how many parts that is.
pub fn two_craft_agree() -> u8
    ensures answer { result ≡ 3 }
    ensures agreement { Agreement }
{
    3
}

// A call is refused exactly where one of its causes holds, by the first of them, and changes nothing then.
// The answer is how many calls there are.
pub fn refusals_are_exact() -> u8
    ensures answer { result ≡ 6 }
    ensures exact { RefusedExactly }
{
    6
}

// Rest is reached: where index 0 is carried more often than the flight's toil says, nothing waits then, or fewer than three are spare.
// So a flight cannot put rest off by refusing carries that it has no cause to refuse. The answer is the index.
pub fn rest_is_reached() -> usize
    ensures answer { result ≡ 0 }
    ensures rest { RestReached }
{
    0
}

// A type of carriers that keep the laws: what its values mean; what opening one gives and every call keeps; and that this implies the laws.
pub trait LawfulCarrier {
    ghost meaning: { Self → Meaning };

    ghost sound: { Self → Type 0 };

    ghost lawful: { (c : Self) → sound c → Lawful (meaning c) };
}

// The same theorem over one type of carriers, for a flight whose calls are known to keep `sound`.
// The answer is how many parts that is.
pub fn agreement_over<C: LawfulCarrier>() -> u8
    ensures answer { result ≡ 3 }
    ensures agreement { (g : ℕ) (ks : List Kind) → AgreementOver C.LawfulCarrier.meaning C.LawfulCarrier.sound g ks }
{
    two_craft_agree()
}

// There is such a flight: four craft, of which one may go astray, and an order that is delivered to all.
// The answer is how many craft that is.
pub fn orders_can_arrive() -> u8
    ensures answer { result ≡ 4 }
    ensures possible { Possible }
{
    4
}

// What the theorem assumes leaves room for an attack: over a carrier that keeps the laws, a craft astray sends two words under one number,
// two craft hear one each, and each echoes its own. The answer is how many craft hear.
pub fn a_split_send_can_be_heard() -> u8
    ensures answer { result ≡ 2 }
    ensures split { SplitHeard }
{
    2
}
